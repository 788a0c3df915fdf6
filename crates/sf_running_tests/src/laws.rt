//! Laws that join reading files with writing states and proofs. Each function only cites other laws; its
//! contract is the law.

ghost use Rattle.sf_running_tests.specs.Checked.Laws.{FinishesOfFilesReadBack, ProgramsThatAreReadHaveNames, WrittenProofsOfFilesReadBack, WrittenStatesOfFilesReadBack};

use sf_elab::laws::{elaborated_is_formed, names_are_unique};
use sf_lex::laws::each_token_is_its_text;
use sf_proof::laws::written_tags_read_back;
use sf_state::laws::written_states_read_back;

/// The names of each program that a file is are names that a state's text can have, and those of
/// one kind differ.
pub fn programs_that_are_read_have_names()
    ensures { ProgramsThatAreReadHaveNames }
{
    each_token_is_its_text();
    names_are_unique();
}

/// What is written of variables and cells of a program that a file is, is read back as these, where
/// values, cells and the text are within the limits.
pub fn written_states_of_files_read_back()
    ensures { WrittenStatesOfFilesReadBack }
{
    programs_that_are_read_have_names();
    elaborated_is_formed();
    written_states_read_back();
}

/// So what a run of such a program ends with is read back from its text, where values, locations,
/// the number of cells and the text are within the limits.
pub fn finishes_of_files_read_back()
    ensures { FinishesOfFilesReadBack }
{
    written_states_of_files_read_back();
}

/// What is written of tags of a program that a file is, is read back as these, where it is within
/// the limit.
pub fn written_proofs_of_files_read_back()
    ensures { WrittenProofsOfFilesReadBack }
{
    programs_that_are_read_have_names();
    written_tags_read_back();
}
