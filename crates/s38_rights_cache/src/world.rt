ghost use Rattle.std.specs.Prelude.{◌≡◌, ◌+◌, ◌-◌, ◌<◌, ◌≤◌, [], ◌∷◌, ℕ, IfOk, IfSome, Some, is_some, length, min, slice_get, slice_set, true};
ghost use Rattle.std.specs.Option.{option_copied};
ghost use Rattle.s38_rules.specs.ask.Authority.{available};
ghost use Rattle.s38_rules.specs.state.Held.{is_there};
ghost use Rattle.s38_rules.specs.state.Invocations.{frames_used, stack_of};
ghost use Rattle.s38_rules.specs.ask.Users.{acting};
ghost use Rattle.s38_rights_cache.specs.Numbers.{frames_in, last_count, number_at};
ghost use Rattle.s38_rights_cache.specs.Places.{AreChecked, ArePlacesRight, AreVisited, IsChecked, IsSteady, found_now, is_current_in, is_for, is_live, rights_anew, with_found};
ghost use Rattle.s38_rights_cache.specs.Worlds.{begun_world, frame_of, place_in, place_of};

use crate::found::{Verified, Visits};
use crate::numbers::{Numbers, no_numbers};
use crate::rows::{is_live, read_rights, stack_of, user_of};
use s38_base::{NoMemory, ObjNum, Rights};
use s38_invoke::Core;
use s38_profiles::CountedRows;
use s38_rules::Table;
use std::alloc::Global;
use std::marker::Model;

/// The core of a machine, and beside it what verified authorities keep: how often authority changed, the numbers of
/// frames, and a place for each process. Instructions see the core alone.
#[derive(Drop)]
pub struct World<T: Table, P: CountedRows> {
    pub core: Core<T, P>,
    pub authority: u64,
    pub frames: Vec<Numbers>,
    pub places: Vec<Option<Verified>>,
    pub visits: Visits,
}

impl<T: Table, P: CountedRows> Model for World<T, P> {
    ghost use Rattle.s38_rights_cache.specs.Worlds.{WorldState};

    ghost Value = { WorldState };

    ghost view = { λ w. record { state = w.core; authority = w.authority; frames = w.frames.items; places = w.places.items; visits = w.visits } };
}

/// The number of the last of so many frames of a process; 0 where there is none.
fn number_in(frames: Option<&Numbers>, used: usize) -> u64
    ensures { result ≡ number_at used (frames_in (option_copied frames.entry)).numbers }
{
    match frames {
        None => 0,
        Some(frames) => frames.number_at(used),
    }
}

fn place_in(place: Option<&Option<Verified>>) -> Option<Verified>
    ensures { result ≡ place_in (option_copied place.entry) }
{
    match place {
        None => None,
        Some(place) => *place,
    }
}

/// Rights that the rows say, and the visits that the profiles had counted before and after that.
#[derive(Drop)]
struct Read {
    rights: Rights,
    before: u64,
    after: u64,
}

/// What the rows say of a process's rights on an object that is there, in a core.
#[tactic(auto, using(crate::proofs::VisitLaws::visits_are), unfolding(s38_rules::specs::ask::Users::acting))]
fn rights_anew<T: Table, P: CountedRows>(
    core: &mut Core<T, P>,
    process: u32,
    depth: u16,
    object: ObjNum,
) -> Read
    requires there { is_there core.old.held object.0 ≡ true }
    ensures rights { result.rights.0 ≡ rights_anew core.old process depth object.0 }
    ensures visits { result.after ≡ min (result.before + length (acting core.old process depth)) last_count }
    ensures later { result.before ≤ result.after }
    ensures same { core.new ≡ core.old }
{
    let user = user_of(&core.processes, process);
    let frames = stack_of(&core.processes, process);
    let used = frames.len().min(depth as usize);
    let before = core.profiles.visits();
    let rights = read_rights(
        &core.objects,
        &mut core.profiles,
        object,
        user,
        &frames[..used],
    );
    let after = core.profiles.visits();
    Read {
        rights,
        before,
        after,
    }
}

impl<T: Table + Drop, P: CountedRows + Drop> World<T, P> {
    /// The world of this core: authority never changed, no process has a frame, and nothing was found. `NoMemory` where
    /// memory was refused.
    pub fn new(alloc: Global, core: Core<T, P>) -> Result<World<T, P>, NoMemory>
        ensures { IfOk result (λ world. world ≡ begun_world core) }
    {
        let count = core.processes.len();
        let frames = no_numbers(alloc, count)?;
        let mut places = Vec::new(alloc);
        places.resize(count, None)?;
        Ok(World {
            core,
            authority: 0,
            frames,
            places,
            visits: Visits {
                count: 0,
                spent: false,
            },
        })
    }
}

impl<T: Table, P: CountedRows> World<T, P> {
    /// How many frames of a process are in use at a depth.
    fn frames_used(&self, process: u32, depth: u16) -> usize
        ensures { result ≡ frames_used depth (stack_of self.now.state process) }
    {
        stack_of(&self.core.processes, process)
            .len()
            .min(depth as usize)
    }

    /// How often authority changed; the count stays at its last value.
    pub fn authority_count(&self) -> u64
        ensures { result ≡ self.now.authority }
    {
        self.authority
    }

    /// The number of the last frame of a process that is in use at a depth; 0 for the job's own template.
    pub fn frame(&self, process: u32, depth: u16) -> u64
        ensures { result ≡ frame_of self.now process depth }
    {
        let used = self.frames_used(process, depth);
        number_in(self.frames.get((process as usize).saturating_sub(1)), used)
    }

    /// How many rows were visited to find rights.
    pub fn visits(&self) -> Visits
        ensures { result ≡ self.now.visits }
    {
        self.visits
    }

    /// Whether a process has started, and has not ended.
    pub fn is_live(&self, process: u32) -> bool
        ensures { result ≡ is_live self.now.state process }
    {
        is_live(&self.core.processes, process)
    }

    /// What was found for a process, None exactly where its place is empty.
    pub fn place(&self, process: u32) -> Option<Verified>
        ensures { result ≡ place_of self.now process }
    {
        place_in(self.places.get((process as usize).saturating_sub(1)))
    }

    /// The rights that a process's place has for an object, where it is current at a depth.
    fn current(&self, process: u32, depth: u16, object: ObjNum) -> Option<Verified>
        ensures is { is_some result ≡ is_current_in self.now process depth object.0 (place_of self.now process) }
        ensures place { IfSome result (λ found. place_of self.now process ≡ Some found) }
    {
        let frame = self.frame(process, depth);
        let used = self.frames_used(process, depth);
        match self.place(process) {
            None => None,
            Some(found) => {
                if is_for(object, self.authority, used, frame, &found) {
                    Some(found)
                } else {
                    None
                }
            }
        }
    }

    /// What the rows say goes into a process's place.
    fn put_in_place(&mut self, process: u32, found: Verified)
        requires { process - 1 < length self.old.places }
        ensures { self.new ≡ record self.old { places = slice_set self.old.places (process - 1) (Some found) } }
    {
        let at = (process as usize).saturating_sub(1);
        self.places[at] = Some(found);
    }

    /// The rights of a process on an object that is there, read from the rows and kept in the process's place.
    #[tactic(auto, using(crate::proofs::PlaceLaws::live_place))]
    fn find(&mut self, process: u32, depth: u16, object: ObjNum) -> Verified
        requires live { is_live self.old.state process ≡ true }
        requires there { is_there self.old.state.held object.0 ≡ true }
        requires places { length self.old.places ≡ length self.old.state.processes }
        ensures found { result ≡ found_now self.old process depth object }
        ensures place { self.new ≡ record (with_found self.old process depth object) { visits = self.new.visits } }
        ensures visits { AreVisited self.old.visits (length (acting self.old.state process depth)) self.new.visits }
    {
        let authority = self.authority;
        let frame = self.frame(process, depth);
        let read = rights_anew(&mut self.core, process, depth, object);
        self.visits = visits_after(self.visits, read.before, read.after);
        let found = Verified {
            object,
            rights: read.rights,
            authority,
            frame,
        };
        self.put_in_place(process, found);
        found
    }

    /// The rights of a process on an object that is there, without those that a pointer carries: what its place has, where
    /// that is current, else what the rows say.
    #[tactic(auto, using(crate::proofs::PlaceLaws::current_found, crate::proofs::PlaceLaws::found_there, crate::proofs::PlaceLaws::found_keeps))]
    pub fn verify(&mut self, process: u32, depth: u16, object: ObjNum) -> Rights
        requires live { is_live self.old.state process ≡ true }
        requires depth { 0 < depth }
        requires there { is_there self.old.state.held object.0 ≡ true }
        requires right { ArePlacesRight self.old }
        ensures rights { result.0 ≡ rights_anew self.old.state process depth object.0 }
        ensures checked { IsChecked self.old process depth object self.new }
    {
        match self.current(process, depth, object) {
            Some(found) => found.rights,
            None => self.find(process, depth, object).rights,
        }
    }

    /// The rights that are available to a process on an object that is there, with those that a pointer carries.
    #[tactic(auto, using(crate::proofs::AskLaws::checked_one), unfolding(s38_rules::specs::ask::Authority::available))]
    pub fn available(&mut self, process: u32, depth: u16, object: ObjNum, carried: Rights) -> Rights
        requires live { is_live self.old.state process ≡ true }
        requires depth { 0 < depth }
        requires there { is_there self.old.state.held object.0 ≡ true }
        requires steady { IsSteady self.old }
        ensures rights { result.0 ≡ available self.old.state.held (acting self.old.state process depth) object.0 carried.0 }
        ensures asked { AreChecked self.old process depth (object ∷ []) self.new }
    {
        Rights(carried.0 | self.verify(process, depth, object).0)
    }
}

/// Whether rights were found for an object, at this count of authority changes and in this frame, the last of so many in use.
fn is_for(object: ObjNum, authority: u64, used: usize, frame: u64, found: &Verified) -> bool
    ensures { result ≡ is_for object.0 authority used frame found.now }
{
    let is_told_apart = frame != u64::MAX && (frame != 0 || used == 1);
    found.object.0 == object.0
        && found.authority == authority
        && authority != u64::MAX
        && found.frame == frame
        && is_told_apart
}

/// The visits after others that the profiles counted.
fn visits_after(visits: Visits, before: u64, after: u64) -> Visits
    requires { before ≤ after }
    ensures { (n : ℕ) → after ≡ min (before + n) last_count → AreVisited visits n result }
{
    Visits {
        count: visits.count.saturating_add(after - before),
        spent: visits.spent || after == u64::MAX,
    }
}
