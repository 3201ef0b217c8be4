//! Who acts in a process.
ghost use Rattle.std.specs.Prelude.{◌≡◌, ◌+◌, ◌<◌, ◌≤◌, ◌++◌, ◌∷◌, [], IfSome, IsTrue, length, map};
ghost use Rattle.std.specs.Option.{option_map};
ghost use Rattle.s38_rules.specs.state.Invocations.{in_use, most_frames, stack_of};
ghost use Rattle.s38_rules.specs.ask.Users.{acting, adopted, adoption_of, frame_header, with_owner};

use crate::core_state::Core;
use s38_base::{ObjNum, UserNum};
use s38_rules::{Header, Table, UserMaps};
use std::marker::Model;

/// How many users act at most: the process's own, and the owner of each program of its stack.
pub const MOST_ACTING: usize = 65;

/// The acting users of a process. It takes no memory, and is seen as their list.
#[derive(Drop)]
pub struct Acting {
    users: [UserNum; MOST_ACTING],
    count: usize,
}

impl Model for Acting {
    ghost use Rattle.std.specs.Prelude.{◌≤◌, ℕ, List, map, take};

    ghost Value = { List ℕ };

    ghost view = { λ a. map (λ u. u.0) (take a.count a.users) };

    ghost invariant = { λ a. a.count ≤ 65 };
}

impl Acting {
    /// Nobody.
    pub fn nobody() -> Acting
        ensures { result ≡ [] }
    {
        Acting {
            users: [ObjNum(0); MOST_ACTING],
            count: 0,
        }
    }

    /// One user more.
    fn add(&mut self, user: UserNum)
        requires { length self.old < 65 }
        ensures { self.new ≡ self.old ++ user.0 ∷ [] }
    {
        self.users[self.count] = user;
        self.count += 1;
    }

    /// The users.
    pub fn as_slice(&self) -> &[UserNum]
        ensures { map (λ u. u.0) result.now ≡ self.now }
    {
        &self.users[..self.count]
    }
}

/// What is said of the program of a frame: nothing of the job's own template, nor of a program that is gone.
pub fn frame_header<T: Table>(objects: &T, frame: ObjNum) -> Option<Header>
    ensures { result ≡ frame_header (T.held objects.now) frame }
{
    if frame.0 == 0 {
        None
    } else {
        objects.header(frame)
    }
}

/// The owner of an adopting program, where it is the last that counts or passes its adoption on.
pub fn adoption_of(last: bool, program: Option<Header>) -> Option<UserNum>
    ensures { option_map (λ u. u.0) result ≡ adoption_of last program }
{
    match program {
        None => None,
        Some(program) => {
            if program.adopts && (last || program.propagates) {
                Some(program.owner)
            } else {
                None
            }
        }
    }
}

/// What is said of the program of a frame, which is handed on where it is the program of the frame before it.
#[inline(always)]
fn said_of<T: Table>(
    objects: &T,
    frame: ObjNum,
    before: ObjNum,
    said: Option<Header>,
) -> Option<Header>
    requires { said ≡ frame_header (T.held objects.now) before }
    ensures { result ≡ frame_header (T.held objects.now) frame }
{
    if frame == before {
        said
    } else {
        frame_header(objects, frame)
    }
}

/// An owner joins the acting users, where there is one.
#[inline(always)]
fn join(acting: &mut Acting, owner: Option<UserNum>)
    requires { length acting.old < 65 }
    ensures { acting.new ≡ acting.old ++ with_owner (option_map (λ u. u.0) owner) [] }
{
    if let Some(owner) = owner {
        acting.add(owner);
    }
}

/// The owners that the frames bring join the acting users. A program that calls itself is looked up once.
fn adopt<T: Table>(objects: &T, acting: &mut Acting, frames: &[ObjNum])
    requires few { length acting.old + length frames.now ≤ 65 }
    ensures { acting.new ≡ acting.old ++ adopted (T.held objects.now) frames.now }
{
    let mut before = ObjNum(0);
    let mut said = None;
    for (k, frame) in frames.iter().enumerate() {
        said = said_of(objects, *frame, before, said);
        before = *frame;
        join(acting, adoption_of(k + 1 == frames.len(), said));
    }
}

/// Whether there is at most one frame, which brings no owner.
#[inline(always)]
fn brings_nobody<T: Table>(objects: &T, frames: &[ObjNum]) -> bool
    ensures { IsTrue result → adopted (T.held objects.now) frames.now ≡ [] }
{
    match frames {
        [] => true,
        [frame] => adoption_of(true, frame_header(objects, *frame)).is_none(),
        _ => false,
    }
}

impl<T: Table, P: UserMaps> Core<T, P> {
    /// The frames of a process that count at a depth.
    fn frames_in_use(&self, process: u32, depth: u16) -> &[ObjNum]
        ensures value { result.now ≡ in_use depth (stack_of self.now process) }
        ensures few { length result.now ≤ most_frames }
    {
        let frames = self.stack_of(process);
        &frames[..frames.len().min(depth as usize)]
    }

    /// The user of a process that has come to a depth of invocations, where it is known at once that nobody else acts:
    /// there is at most one frame, and it brings nobody.
    #[inline(always)]
    #[tactic(auto, unfolding(s38_rules::specs::ask::Users::acting))]
    pub fn sole_user(&self, process: u32, depth: u16) -> Option<UserNum>
        ensures { IfSome result (λ user. acting self.now process depth ≡ user.0 ∷ []) }
    {
        if brings_nobody(&self.objects, self.frames_in_use(process, depth)) {
            Some(self.user_of(process))
        } else {
            None
        }
    }

    /// The acting users of a process that has come to a depth of invocations join those that act, who are nobody
    /// yet: its user, and the owners of programs that adopt.
    #[inline(always)]
    #[tactic(auto, unfolding(s38_rules::specs::ask::Users::acting))]
    pub fn act(&self, process: u32, depth: u16, users: &mut Acting)
        requires { users.old ≡ [] }
        ensures { users.new ≡ acting self.now process depth }
    {
        users.add(self.user_of(process));
        let frames = self.frames_in_use(process, depth);
        adopt(&self.objects, users, frames);
    }

    /// The acting users of a process that has come to a depth of invocations.
    pub fn acting(&self, process: u32, depth: u16) -> Acting
        ensures { result ≡ acting self.now process depth }
    {
        let mut acting = Acting::nobody();
        self.act(process, depth, &mut acting);
        acting
    }
}
