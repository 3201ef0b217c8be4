//! What is true of the words of decks, in all tables that they go through.
ghost use Rattle.s38_base.specs.declared.op.Op.TheVariants.{Cmpblab, Cmpnvb, Cmpptrt, Crtq, Deq, Fndinxen, Lock, Modexcpd, Setcr, Unlock, Xfrlock};
ghost use Rattle.s38_base.specs.declared.words.LockState.{LockState};
ghost use Rattle.s38_locks.specs.States.{rank};
ghost use Rattle.s38_rules.specs.families.Locking.{lock_state_of};
ghost use Rattle.s38_laws_words.specs.Named.{NamesLockStates, NamesOrders, NamesPointerKinds, NamesRelations, NamesSeeks, NamesSwitches, NamesWaits};
ghost use Rattle.std.specs.Prelude.{◌≡◌};

/// A word at an operand of an instruction is, for who carries the instruction out, what the word names: for each operand
/// that takes words of a fixed list, and each word of that list.
pub fn each_word_is_what_it_names()
    ensures lock { NamesLockStates Lock 2 }
    ensures unlock { NamesLockStates Unlock 2 }
    ensures transfer { NamesLockStates Xfrlock 2 }
    ensures lock_waits { NamesWaits Lock 3 }
    ensures dequeue_waits { NamesWaits Deq 5 }
    ensures orders { NamesOrders Crtq 5 }
    ensures seeks { NamesSeeks Setcr 2 }
    ensures pointer_kinds { NamesPointerKinds Cmpptrt 2 }
    ensures switches { NamesSwitches Modexcpd 2 }
    ensures messages { NamesRelations Deq 3 }
    ensures entries { NamesRelations Fndinxen 3 }
    ensures numbers { NamesRelations Cmpnvb 3 }
    ensures strings { NamesRelations Cmpblab 3 }
{}

/// The number of a lock state in a list of locks is the number of its word.
pub fn listed_states_are_the_states()
    ensures { (state : LockState) → lock_state_of (rank state) ≡ state }
{}
