// Oracle files stand for files: the translation, token by token, is that of the phrases of their grammar.
#![tactic(auto)]

ghost use Rattle.std.specs.Prelude.{◌≡◌, ◌↔◌, true, List, []};
ghost use Rattle.cv_lex.specs.Lexis.{Token};
ghost use Rattle.cv_lex.specs.View.{AreTokens};
ghost use Rattle.cv_parse_notation.specs.Spells.{Use};
ghost use Rattle.cv_parse_grammar.specs.Files.{IsFile, levels};
ghost use Rattle.cv_parse_grammar.specs.Rules.{File};
ghost use Rattle.cv_parse_grammar.specs.declared.role.Role.{Role};
ghost use Rattle.cv_parse_tables.specs.terminals.Signs.{signs_of};
ghost use Rattle.cv_oracles.specs.Translations.{file_for, is_oracle_file};
ghost use Rattle.cv_oracle_laws.specs.OracleFiles.{IsOracleFile, SpellsOracleFile, contents};

/// Of tokens that are an oracle file by the grammar of oracle files, the translation is the file for which it
/// stands. So they stand for one file only.
pub fn oracle_files_stand_for_files()
    ensures { (tokens file : List Token) → AreTokens tokens →
        IsOracleFile (contents tokens) file → contents (file_for tokens) ≡ file }
{}

/// Tokens that begin as an oracle file does spell an oracle file exactly where their translation spells a file,
/// and with the same value and the same uses of names.
pub fn translations_are_of_oracle_files()
    ensures { (tokens : List Token) (f : File) (uses : List (Use Role)) → AreTokens tokens →
        is_oracle_file tokens ≡ true →
        SpellsOracleFile tokens f uses ↔ IsFile levels (signs_of (file_for tokens)).signs f uses [] }
{}
