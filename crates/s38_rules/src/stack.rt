ghost use Rattle.std.specs.Prelude.{◌≡◌, ◌<◌, ◌≤◌, ◌++◌, ◌∷◌, [], length, take, IfOk, OnErr, OnOk};
ghost use Rattle.s38_rules.specs.state.Invocations.{frames_used, most_frames, pushed, replaced};

use s38_base::{NoMemory, ObjNum};
use std::alloc::Global;
use std::marker::Model;

/// The programs of a process's invocations, the newest last; 1 to 64. Contracts see it as their list.
#[derive(Drop)]
pub struct Stack {
    frames: Vec<ObjNum>,
}

impl Model for Stack {
    ghost use Rattle.std.specs.Prelude.{◌<◌, ◌≤◌, List, vec_len};
    ghost use Rattle.s38_base.specs.declared.id.ObjNum.{ObjNum};

    ghost Value = { List ObjNum };

    ghost view = { λ s. s.frames.items };

    ghost invariant = { λ s. (0 < vec_len s.frames) × (vec_len s.frames ≤ 64) };
}

impl Stack {
    /// The stack of a job that begins: its own template.
    pub fn own_template(alloc: Global) -> Result<Stack, NoMemory>
        ensures { IfOk result (λ stack. stack ≡ record { 0 = 0 } ∷ []) }
    {
        let mut frames = Vec::new(alloc);
        frames.push(ObjNum(0))?;
        Ok(Stack { frames })
    }

    /// The programs.
    pub fn as_slice(&self) -> &[ObjNum]
        ensures value { result.now ≡ self.now }
        ensures few { length result.now ≤ most_frames }
    {
        self.frames.as_slice()
    }

    /// How many frames count at a depth.
    pub fn frames_used(&self, depth: u16) -> usize
        ensures { result ≡ frames_used depth self.now }
    {
        (depth as usize).min(self.frames.len())
    }

    /// The frame at a place becomes the program, and is the last.
    fn end_with(&mut self, at: usize, program: ObjNum)
        requires { at < length self.old }
        ensures { self.new ≡ take at self.old ++ program ∷ [] }
    {
        self.frames[at] = program;
        self.frames.truncate(at + 1);
    }

    /// A program is called: the frames that count stay, and it is added; where memory is refused nothing changes.
    pub fn push(&mut self, depth: u16, program: ObjNum) -> Result<(), NoMemory>
        requires { frames_used depth self.old < most_frames }
        ensures ok { OnOk result (self.new ≡ pushed depth program self.old) }
        ensures err { OnErr result (self.new ≡ self.old) }
    {
        let used = self.frames_used(depth);
        if used < self.frames.len() {
            self.end_with(used, program);
            return Ok(());
        }
        match self.frames.push(program) {
            Ok(()) => Ok(()),
            Err(_) => Err(NoMemory),
        }
    }

    /// The last frame that counts becomes the program.
    pub fn replace(&mut self, depth: u16, program: ObjNum)
        ensures { self.new ≡ replaced depth program self.old }
    {
        let used = (depth as usize).min(self.frames.len());
        self.end_with(used.saturating_sub(1), program);
    }
}
