//! Laws of a proof's text. Each function does nothing; its contract is the law.

ghost use Rattle.sf_proof.specs.Checked.Laws.{EachTextReadsOnce, WrittenTagsReadBack};

/// Each byte string reads in exactly one way: as tags on lines, with the first line that isn't in
/// order, or as too long.
#[tactic(auto, using(crate::proofs::Once::each_text_reads_once))]
pub fn each_text_reads_once()
    ensures { EachTextReadsOnce }
{}

/// What is written of tags reads as these tags, where it is within the limit and each procedure
/// that is begun is the first of its name.
#[tactic(auto, using(crate::proofs::Back::written_tags_read_back))]
pub fn written_tags_read_back()
    ensures { WrittenTagsReadBack }
{}
