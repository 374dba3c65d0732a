// What holds of all canonical texts.
ghost use Rattle.std.specs.Prelude.{◌≡◌, ℕ, List, true};
ghost use Rattle.mesh_base_values.specs.Kinds.{lookback_of};
ghost use Rattle.mesh_base_values.specs.declared.values.Cell.{Cell};
ghost use Rattle.mesh_base_values.specs.declared.values.ColType.{ColType};
ghost use Rattle.mesh_base.specs.declared.definitions.Own.{Own};
ghost use Rattle.mesh_canon_reading.specs.Fits.{are_texts, cell_fits, is_own};
ghost use Rattle.mesh_canon_text.specs.Text.{cell_text, list_text, own_text, own_text_old, type_word};

/// Two definitions of one text are equal, and so are two lists of texts, two cells and two types.
pub fn one_text_one_value()
    ensures definitions { (a b : Own) → is_own a ≡ true → is_own b ≡ true → own_text a ≡ own_text b → a ≡ b }
    // Of one former text as well, where they have no lookback.
    ensures former { (a b : Own) → is_own a ≡ true → is_own b ≡ true → lookback_of a.kind ≡ 0 → lookback_of b.kind ≡ 0 → own_text_old a ≡ own_text_old b → a ≡ b }
    // A canonical text that is the former text of a definition is its canonical text.
    ensures both { (a b : Own) → is_own a ≡ true → is_own b ≡ true → own_text a ≡ own_text_old b → a ≡ b }
    ensures lists { (a b : List (List ℕ)) → are_texts a ≡ true → are_texts b ≡ true → list_text a ≡ list_text b → a ≡ b }
    ensures cells { (a b : Cell) → cell_fits a ≡ true → cell_fits b ≡ true → cell_text a ≡ cell_text b → a ≡ b }
    ensures types { (a b : ColType) → type_word a ≡ type_word b → a ≡ b }
{}
