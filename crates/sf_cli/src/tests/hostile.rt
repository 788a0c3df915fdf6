//! What is said where the outside fails, where the text of a proof is cut, where threads are held up
//! for as long as may be, and at the limits of a run.

mod cuts;
mod deep;
mod faults;
mod gates;
mod meetings;
