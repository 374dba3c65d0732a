// Models at one state of their files, and the environments that list them.
use crate::definitions::Own;
use mesh_base_values::{Name, Str};
use mesh_list::{Duplicate, Memory, Register, Same, Seq, both, together};

pub type Refs = Seq<Ref>;

/// Places in a list of nodes, from 0.
pub type Indexes = Seq<u32>;

pub type Nodes = Seq<Node>;

/// Found by name and fingerprint.
pub type Snapshots = Register<Snapshot>;

/// Found by name.
pub type Envs = Register<Env>;

/// A model at one fingerprint, which is the SHA-256 of its definition and its parents' fingerprints.
#[derive(Drop)]
pub struct Ref {
    pub name: Name,
    pub fingerprint: [u8; 32],
}

/// A model of a project. Its parents are places among the project's nodes.
pub struct Node {
    pub own: Own,
    pub parents: Indexes,
    pub rank: u32,
    pub fingerprint: [u8; 32],
}

impl Drop for Node {
    fn drop(self) {
        let Node {
            own: _,
            parents: _,
            rank: _,
            fingerprint: _,
        } = self;
    }
}

/// A model that was planned once, and the table or view that has its rows. From the second `expires` on it may go
/// where no environment lists it.
pub struct Snapshot {
    pub name: Name,
    pub fingerprint: [u8; 32],
    pub own: Own,
    pub parents: Refs,
    pub rank: u32,
    pub object: Name,
    pub expires: i64,
}

impl Drop for Snapshot {
    fn drop(self) {
        let Snapshot {
            name: _,
            fingerprint: _,
            own: _,
            parents: _,
            rank: _,
            object: _,
            expires: _,
        } = self;
    }
}

/// While it is pending its views may be those of `list` or of `previous`. One without an expiry stays.
pub struct Env {
    pub name: Str,
    pub pending: bool,
    pub list: Refs,
    pub previous: Refs,
    pub expires: Option<i64>,
}

impl Drop for Env {
    fn drop(self) {
        let Env {
            name: _,
            pending: _,
            list: _,
            previous: _,
            expires: _,
        } = self;
    }
}

impl Duplicate for Ref {
    fn copy(&self) -> Result<Ref, Memory> {
        Ok(Ref {
            name: self.name.copy()?,
            fingerprint: self.fingerprint,
        })
    }
}

impl Duplicate for Node {
    fn copy(&self) -> Result<Node, Memory> {
        let (own, parents) = both(&self.own, &self.parents)?;
        Ok(Node {
            own,
            parents,
            rank: self.rank,
            fingerprint: self.fingerprint,
        })
    }
}

impl Duplicate for Snapshot {
    fn copy(&self) -> Result<Snapshot, Memory> {
        let ((name, own), (parents, object)) = together(
            both(&self.name, &self.own),
            both(&self.parents, &self.object),
        )?;
        Ok(Snapshot {
            name,
            fingerprint: self.fingerprint,
            own,
            parents,
            rank: self.rank,
            object,
            expires: self.expires,
        })
    }
}

impl Duplicate for Env {
    fn copy(&self) -> Result<Env, Memory> {
        let name = self.name.copy()?;
        let (list, previous) = both(&self.list, &self.previous)?;
        Ok(Env {
            name,
            pending: self.pending,
            list,
            previous,
            expires: self.expires,
        })
    }
}

impl Same for Ref {
    fn same(&self, other: &Ref) -> bool {
        self.name.same(&other.name) && self.fingerprint == other.fingerprint
    }
}

impl Same for Node {
    fn same(&self, other: &Node) -> bool {
        self.own.same(&other.own)
            && self.parents.same(&other.parents)
            && self.rank == other.rank
            && self.fingerprint == other.fingerprint
    }
}

impl Same for Snapshot {
    fn same(&self, other: &Snapshot) -> bool {
        self.name.same(&other.name)
            && self.fingerprint == other.fingerprint
            && self.own.same(&other.own)
            && self.parents.same(&other.parents)
            && self.rank == other.rank
            && self.object.same(&other.object)
            && self.expires == other.expires
    }
}

impl Same for Env {
    fn same(&self, other: &Env) -> bool {
        self.name.same(&other.name)
            && self.pending == other.pending
            && self.list.same(&other.list)
            && self.previous.same(&other.previous)
            && self.expires == other.expires
    }
}
