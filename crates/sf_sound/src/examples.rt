//! Examples. Each function does nothing; its contract is the result.

ghost use Rattle.sf_sound.specs.Checked.Examples.{PairIsSound};
ghost use Rattle.sf_sound.specs.Checked.ExamplesOfInit.{SetUpIsSound, UnmetInvariantsHaveNoProof};
ghost use Rattle.sf_sound.specs.Checked.ExamplesOfRaces.{SharedWritersRace, WritersHaveNoProof};
ghost use Rattle.sf_sound.specs.Checked.ExamplesOfRegions.{BufferIsSound};

use crate::laws::proofs_are_sound;
use sf_calls::laws::sets_exist;
use sf_precise::laws::ordering_exists;

/// A program with parallel calls that keeps all that the theorem asks and that tags prove by the
/// rows of the whole table: so what the theorem asks can be kept, and this program is sound.
pub fn pair_is_sound()
    ensures { PairIsSound }
{
    proofs_are_sound();
    ordering_exists();
}

/// The buffer with one place: one task puts its cell into it and another one gets the cell, each in
/// a region of the buffer's resource. Tags prove the program, so it is sound: whoever gets the cell
/// owns it and may dispose of it, in whatever order the tasks come.
pub fn buffer_is_sound()
    ensures { BufferIsSound }
{
    proofs_are_sound();
    ordering_exists();
}

/// Two tasks that write one cell. Their program keeps all that the theorem asks, but one event
/// leads from a start to a race: so by the theorem no tags prove it, in whatever order they come
/// and however many they are.
pub fn writers_have_no_proof()
    ensures { WritersHaveNoProof }
{
    proofs_are_sound();
    ordering_exists();
    sets_exist();
}

/// Two tasks that write one variable. Tags prove their program, and it keeps all that the theorem
/// asks but one condition on variables, that parallel calls share none that either may change; and
/// one event leads from a start to a race. So without that condition the theorem would be false.
pub fn shared_writers_race()
    ensures { SharedWritersRace }
{
    ordering_exists();
}

/// A procedure that sets a resource up by the cell that its invariant asks for. Tags prove the
/// program, so it is sound: where it starts fresh, too.
pub fn set_up_is_sound()
    ensures { SetUpIsSound }
{
    proofs_are_sound();
    ordering_exists();
}

/// One that makes nothing leaves the invariant unmet where it returns: so its program isn't sound,
/// and by the theorem no tags prove it.
pub fn unmet_invariants_have_no_proof()
    ensures { UnmetInvariantsHaveNoProof }
{
    proofs_are_sound();
    ordering_exists();
    sets_exist();
}
