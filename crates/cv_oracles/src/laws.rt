ghost use Rattle.std.specs.Prelude.{◌≡◌, map};
ghost use Rattle.cv_oracles.specs.Translations.{file_for};
ghost use Rattle.cv_oracles.specs.Worked.{number_of, small, small_numbers, small_texts, text_of};

/// A small oracle file, the file for which it stands, and the tokens that each token of that file is written for.
pub fn worked_translation()
    ensures texts { map text_of (file_for small) ≡ small_texts }
    ensures numbers { map number_of (file_for small) ≡ small_numbers }
{}
