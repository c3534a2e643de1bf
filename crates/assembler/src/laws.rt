//! Laws.
ghost use Rattle.spec_text.specs.Names.{NamesOne};
ghost use Rattle.assembler.specs.ModuleParts.{ReadingIsExact, ModulesAreOne};

use lexer::no_text_lexes_to_two_lists;
use text_fields::no_text_has_two_lists_of_spaces;
use text_tree::no_words_are_two_texts;

/// A law: fields are read as the module that they make, and are not read where they make none whose expressions are within
/// the limits.
pub fn reading_of_fields_is_exact()
    ensures { ReadingIsExact }
{}

/// A law: no fields make two modules whose expressions are within the limits.
pub fn no_fields_make_two_modules()
    ensures { ModulesAreOne }
{}

/// A law: no text names two modules.
pub fn no_text_names_two_modules()
    ensures { NamesOne }
{
    no_text_lexes_to_two_lists();
    no_words_are_two_texts();
    no_text_has_two_lists_of_spaces();
    no_fields_make_two_modules();
}
