// The file of an audit.
use crate::text::AuditText;
use mesh_base_values::Str;
use mesh_list::Seq;

/// In the order of their paths.
pub type AuditFiles = Seq<AuditFile>;

/// An audit's file, by its path in the project, and what it says.
pub struct AuditFile {
    pub file: Str,
    pub text: AuditText,
}

impl Drop for AuditFile {
    fn drop(self) {
        let AuditFile { file: _, text: _ } = self;
    }
}
