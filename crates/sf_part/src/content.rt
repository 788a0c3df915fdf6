//! Contents: what is a resource's while no task holds it.

ghost use Rattle.std.specs.Prelude.{◌≡◌};
ghost use Rattle.sf_part.specs.Contents.{content_of};

use sf_base::ResId;
use sf_frame::Store;
use sf_heap::Heap;

/// The variables and cells of a resource while no task holds it, with the stamp of the exit that
/// left them behind.
#[derive(Drop)]
pub struct Content {
    pub(crate) resource: ResId,
    pub(crate) store: Store,
    pub(crate) heap: Heap,
    pub(crate) stamp: u64,
}

impl Content {
    /// The resource.
    pub fn resource(&self) -> ResId
        ensures { result ≡ (content_of self.now).content.resource }
    {
        self.resource
    }
}
