// What the definitions give.
ghost use Rattle.std.specs.Prelude.{◌≡◌, true, false, None, List};
ghost use Rattle.mesh_base.specs.declared.forgets.Rename.{Rename};
ghost use Rattle.mesh_house_book.specs.declared.book.Book.{Book};
ghost use Rattle.mesh_house_book.specs.WellFormed.{is_well_formed_book};
ghost use Rattle.mesh_house_book.specs.moves.Renames.{has_twins, renamed_all};
ghost use Rattle.mesh_janitor.specs.migrate.Migration.{IsMap, first_twins};

/// A well-formed book has a map.
pub fn a_book_has_a_map()
    ensures { (b : Book) → is_well_formed_book b ≡ true → (renames : List Rename) × IsMap b renames }
{}

/// Two maps of a well-formed book are one.
pub fn a_book_has_one_map()
    ensures { (b : Book) (one other : List Rename) → is_well_formed_book b ≡ true → IsMap b one → IsMap b other → one ≡ other }
{}

/// A warehouse does what a map without twins says: no two of the book's snapshots become one.
pub fn a_map_without_twins_moves_the_book()
    ensures { (b : Book) (renames : List Rename) → is_well_formed_book b ≡ true → IsMap b renames → first_twins renames ≡ None →
        has_twins (renamed_all renames b.snapshots) ≡ false }
{}
