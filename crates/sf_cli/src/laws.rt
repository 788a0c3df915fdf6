//! Laws of answers. Each function is a law: calling it gives its fact to the caller's proof, and
//! does nothing.

ghost use Rattle.sf_cli.specs.Checked.Laws.{AcceptedFilesAreReplayedSafely, AcceptedFilesAreSound, AcceptedProofsAreSound, AcceptedRunsAreSound, EachCommandHasAnAnswer, EachCommandHasOneAnswer, EachDemoHasAnAnswer, EachDemoHasOneAnswer, EachFileHasAnAnswer, EachFileHasOneAnswer, EachFileIsDecided, EachFileIsOneProgram, EachJournalHasAnAnswer, EachJournalHasOneAnswer, EachProofHasAnAnswer, EachProofHasOneAnswer, EachRankingHasAnAnswer, EachRankingHasOneAnswer, EachReplayHasAnAnswer, EachReplayHasOneAnswer, EachRunHasAnAnswer, EachRunHasOneAnswer, EachWitnessHasAnAnswer, EachWitnessHasOneAnswer, FinishedRunsHaveEnded, JournalsReachTheirEnds, ProvedProgramsAreReplayedSafely};

use sf_check::laws::{proves_not_refused, proves_or_refused, refused_once};
use sf_elab::laws::elaborated_is_formed;
use sf_journal::laws::{
    logs_of_one_task_keep_its_order, merged_cells_are_empty, merged_logs_reach_the_same,
    runs_have_journals,
};
use sf_lex::laws::each_file_reads_once;
use sf_order::laws::{each_program_is_ordered, resources_are_listed_once};
use sf_parse::laws::each_file_is_shallow;
use sf_precise::laws::{never_taken_is_undetermined, undetermined_annotations_have_place};
use sf_proof::laws::each_text_reads_once;
use sf_replay::laws::{events_are_replayed_once, sound_runs_are_clean, starts_are_replayed};
use sf_rules::laws::{setting_exists, setting_is_unique};
use sf_run::{
    bases_are_free, beginnings_are_starts, beginnings_are_unique, ends_are_numbered,
    numbered_runs_reach, outcomes_are_unique, spent_runs_have_used_all, starts_have_one_outcome,
    units_stay_free, waiting_runs_try_in_vain,
};
use sf_search::{programs_have_verdicts, taken_tags_prove, verdicts_are_unique};
use sf_sound::proofs_are_sound;
use sf_state::laws::{entry_exists, entry_is_unique, start_exists, start_is_unique};
use sf_vars::laws::{each_program_has_an_answer, each_program_has_one_answer};
use sf_witness::laws::{each_goal_has_a_text, each_goal_has_one_text};

/// Bytes read as at most one program.
pub fn each_file_is_one_program()
    ensures { EachFileIsOneProgram }
{
    each_file_reads_once();
    sf_parse::laws::each_file_is_one();
    sf_elab::laws::each_file_is_one();
}

/// A file is one program with which nothing is wrong, or is refused for one cause, and not both.
pub fn each_file_is_decided()
    ensures { EachFileIsDecided }
{
    each_file_reads_once();
    sf_parse::laws::each_file_is_one();
    sf_parse::laws::answer_is_unique();
    sf_elab::laws::each_file_is_one();
    each_program_has_one_answer();
    never_taken_is_undetermined();
}

/// Each file has at most one answer.
pub fn each_file_has_one_answer()
    ensures { EachFileHasOneAnswer }
{
    each_file_is_decided();
    setting_is_unique();
    verdicts_are_unique();
}

/// The text of a proof has at most one answer.
pub fn each_proof_has_one_answer()
    ensures { EachProofHasOneAnswer }
{
    setting_is_unique();
    each_text_reads_once();
    refused_once();
    proves_not_refused();
}

/// Each file has an answer: it is refused for some cause, or there is a verdict on it.
pub fn each_file_has_an_answer()
    ensures { EachFileHasAnAnswer }
{
    each_file_reads_once();
    sf_parse::laws::answer_is_unique();
    each_file_is_shallow();
    sf_elab::laws::each_file_is_one();
    elaborated_is_formed();
    each_program_has_an_answer();
    undetermined_annotations_have_place();
    setting_exists();
    programs_have_verdicts();
}

/// The text of a proof has an answer, for a file's program with which nothing is wrong.
pub fn each_proof_has_an_answer()
    ensures { EachProofHasAnAnswer }
{
    each_file_is_shallow();
    elaborated_is_formed();
    setting_exists();
    each_text_reads_once();
    proves_or_refused();
}

/// A run of a file's program has at most one answer over the same files, where one is not of its
/// tasks, or no parallel call can be reached.
pub fn each_run_has_one_answer()
    ensures { EachRunHasOneAnswer }
{
    each_file_is_decided();
    setting_is_unique();
    verdicts_are_unique();
    entry_is_unique();
    start_is_unique();
    beginnings_are_unique();
    outcomes_are_unique();
}

/// A run of a file's program has an answer, where the state's file is there and no parallel call
/// can be reached.
pub fn each_run_has_an_answer()
    ensures { EachRunHasAnAnswer }
{
    each_file_has_an_answer();
    each_file_is_shallow();
    elaborated_is_formed();
    taken_tags_prove();
    proofs_are_sound();
    entry_exists();
    start_exists();
    starts_have_one_outcome();
    beginnings_are_starts();
    beginnings_are_unique();
    ends_are_numbered();
    spent_runs_have_used_all();
    waiting_runs_try_in_vain();
    bases_are_free();
    units_stay_free();
}

/// A run whose events are told has at most one answer over the same files, where one is not of its
/// tasks, or no parallel call can be reached.
pub fn each_journal_has_one_answer()
    ensures { EachJournalHasOneAnswer }
{
    each_file_is_decided();
    entry_is_unique();
    start_is_unique();
    beginnings_are_unique();
    logs_of_one_task_keep_its_order();
    each_run_has_one_answer();
}

/// A run whose events are told has an answer, where the state's file is there and no parallel call
/// can be reached.
pub fn each_journal_has_an_answer()
    ensures { EachJournalHasAnAnswer }
{
    each_run_has_an_answer();
    numbered_runs_reach();
    runs_have_journals();
}

/// `demo` has at most one answer.
pub fn each_demo_has_one_answer()
    ensures { EachDemoHasOneAnswer }
{
    each_file_is_decided();
    setting_is_unique();
    verdicts_are_unique();
    each_file_has_one_answer();
}

/// `demo` has an answer.
#[tactic(auto, using(crate::proofs::AnswerLaws::each_demo_has_an_answer))]
pub fn each_demo_has_an_answer()
    ensures { EachDemoHasAnAnswer }
{
    each_file_has_an_answer();
}

/// A file whose resources are ranked has at most one answer.
pub fn each_ranking_has_one_answer()
    ensures { EachRankingHasOneAnswer }
{
    each_file_is_decided();
    each_file_is_shallow();
    elaborated_is_formed();
    each_program_is_ordered();
    resources_are_listed_once();
}

/// A file whose resources are ranked has an answer.
pub fn each_ranking_has_an_answer()
    ensures { EachRankingHasAnAnswer }
{
    each_file_has_an_answer();
    each_file_is_shallow();
    elaborated_is_formed();
    each_program_is_ordered();
    resources_are_listed_once();
}

/// A file of which a witness is asked for has at most one answer.
pub fn each_witness_has_one_answer()
    ensures { EachWitnessHasOneAnswer }
{
    each_file_is_decided();
    setting_is_unique();
    verdicts_are_unique();
    each_goal_has_one_text();
}

/// A file of which a witness is asked for has an answer.
pub fn each_witness_has_an_answer()
    ensures { EachWitnessHasAnAnswer }
{
    each_file_has_an_answer();
    each_goal_has_a_text();
}

/// A replay of a file's program has at most one answer over the same files.
pub fn each_replay_has_one_answer()
    ensures { EachReplayHasOneAnswer }
{
    each_file_is_decided();
    entry_is_unique();
    start_is_unique();
    beginnings_are_unique();
    events_are_replayed_once();
}

/// A replay of a file's program has an answer, where the files of the state and of the schedule are
/// there.
pub fn each_replay_has_an_answer()
    ensures { EachReplayHasAnAnswer }
{
    each_file_has_an_answer();
    each_file_is_shallow();
    elaborated_is_formed();
    entry_exists();
    start_exists();
    starts_are_replayed();
}

/// Of a program of which the conditions on variables hold, and which tags prove, neither an absent
/// cell nor a race is found, from whichever state and by whichever schedule.
pub fn proved_programs_are_replayed_safely()
    ensures { ProvedProgramsAreReplayedSafely }
{
    sound_runs_are_clean();
    beginnings_are_starts();
    each_file_is_shallow();
    elaborated_is_formed();
    proofs_are_sound();
}

/// Of a file that is accepted neither is found.
pub fn accepted_files_are_replayed_safely()
    ensures { AcceptedFilesAreReplayedSafely }
{
    sound_runs_are_clean();
    beginnings_are_starts();
    each_file_is_decided();
    accepted_files_are_sound();
}

/// Words have an answer over files, where the files that they name are there, but for runs in which
/// a parallel call can be reached.
#[tactic(auto, using(crate::proofs::AnswerLaws::each_command_has_an_answer))]
pub fn each_command_has_an_answer()
    ensures { EachCommandHasAnAnswer }
{
    each_file_has_an_answer();
    each_proof_has_an_answer();
    each_run_has_an_answer();
    each_demo_has_an_answer();
    each_ranking_has_an_answer();
    each_replay_has_an_answer();
    each_witness_has_an_answer();
    each_journal_has_an_answer();
}

/// Words have at most one answer over the same files, but for what comes of such runs.
#[tactic(auto, using(crate::proofs::AnswerLaws::each_command_has_one_answer))]
pub fn each_command_has_one_answer()
    ensures { EachCommandHasOneAnswer }
{
    each_file_is_decided();
    each_file_has_one_answer();
    each_proof_has_one_answer();
    each_run_has_one_answer();
    each_demo_has_one_answer();
    each_ranking_has_one_answer();
    each_replay_has_one_answer();
    each_witness_has_one_answer();
    each_journal_has_one_answer();
}

/// Whatever bytes are answered with status 0 are those of a sound program.
pub fn accepted_files_are_sound()
    ensures { AcceptedFilesAreSound }
{
    each_file_is_shallow();
    elaborated_is_formed();
    taken_tags_prove();
    proofs_are_sound();
}

/// Whatever bytes are accepted as a proof of a file, it is that of a sound program.
pub fn accepted_proofs_are_sound()
    ensures { AcceptedProofsAreSound }
{
    each_file_is_shallow();
    elaborated_is_formed();
    proofs_are_sound();
}

/// Whatever bytes a file has of which a run is answered as one of a proved program, it is that of a
/// sound program.
pub fn accepted_runs_are_sound()
    ensures { AcceptedRunsAreSound }
{
    each_file_is_shallow();
    elaborated_is_formed();
    taken_tags_prove();
    proofs_are_sound();
}

/// What is answered to a run with status 0 is the text of an end of it.
pub fn finished_runs_have_ended()
    ensures { FinishedRunsHaveEnded }
{}

/// What is answered to a run whose events are told, with status 0, leads from the start to the end.
pub fn journals_reach_their_ends()
    ensures { JournalsReachTheirEnds }
{
    merged_logs_reach_the_same();
    merged_cells_are_empty();
    beginnings_are_starts();
    each_file_is_shallow();
    elaborated_is_formed();
    taken_tags_prove();
    proofs_are_sound();
}
