//! Counts, frame numbers and places follow what took effect.
ghost use Rattle.std.specs.Prelude.{◌≡◌, ◌-◌, None, if◌then◌else◌, length, slice_set};
ghost use Rattle.s38_base.specs.Faults.{counted};
ghost use Rattle.s38_rules.specs.state.Invocations.{stack_of};
ghost use Rattle.s38_rules.specs.state.State.{State};
ghost use Rattle.s38_rights_cache.specs.Following.{is_of_authority, is_of_frames, with_new_frame, world_after_event, world_after_op, world_after_start};

use crate::found::Verified;
use crate::numbers::{begin_at, renumber_at};
use crate::rows::stack_of;
use crate::world::World;
use s38_base::Op;
use s38_code::Event;
use s38_profiles::CountedRows;
use s38_rules::Table;

/// Whether authority changes by an instruction.
fn is_of_authority(op: Op) -> bool
    ensures { result ≡ is_of_authority op }
{
    matches!(
        op,
        Op::Modup | Op::Grant | Op::Retract | Op::Xfro | Op::Despg
    )
}

/// Whether an instruction stores a frame.
fn is_of_frames(op: Op) -> bool
    ensures { result ≡ is_of_frames op }
{
    matches!(op, Op::Callx | Op::Xctl)
}

/// Nothing was found at a place.
#[tactic(auto, using(std::proofs::lemmas::List::set_past))]
fn clear(places: &mut [Option<Verified>], place: usize)
    ensures { places.new ≡ slice_set places.old place None }
{
    if place < places.len() {
        places[place] = None;
    }
}

impl<T: Table, P: CountedRows> World<T, P> {
    /// A process has started: it has its first frame, and nothing was found for it.
    fn begin(&mut self, process: u32)
        ensures { self.new ≡ world_after_start self.old process self.old.state }
    {
        let place = (process as usize).saturating_sub(1);
        begin_at(&mut self.frames, place);
        clear(&mut self.places, place);
    }

    /// The last frame of a process is new.
    fn renumber(&mut self, process: u32)
        ensures { self.new ≡ record self.old { frames = with_new_frame self.old process self.old.state } }
    {
        let place = (process as usize).saturating_sub(1);
        let others = stack_of(&self.core.processes, process)
            .len()
            .saturating_sub(1);
        renumber_at(&mut self.frames, place, others);
    }

    /// Authority has changed.
    fn raise(&mut self)
        ensures { self.new ≡ record self.old { authority = counted self.old.authority } }
    {
        self.authority = self.authority.saturating_add(1);
    }

    /// An instruction has taken effect.
    fn follow_op(&mut self, process: u32, op: Op)
        ensures { self.new ≡ world_after_op self.old process op self.old.state }
    {
        if is_of_authority(op) {
            self.raise();
        }
        if is_of_frames(op) {
            self.renumber(process);
        }
    }

    /// An event has taken effect, from some state to that which is there now: authority changes are counted, a frame that was
    /// stored gets a new number, and a process that starts has an empty place.
    #[tactic(auto, using(crate::proofs::RowLaws::world_after_act), unfolding(crate::specs::Following::world_after_event))]
    pub fn follow(&mut self, process: u32, event: &Event)
        ensures { (s : State) → self.new ≡ world_after_event (record self.old { state = s }) process event.now self.old.state }
    {
        match event {
            Event::Start => self.begin(process),
            Event::Act { request, .. } => self.follow_op(process, request.op),
            Event::Finish { .. } => {}
        }
    }
}
