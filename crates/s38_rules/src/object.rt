use crate::block::Block;
use crate::cursor::Cursor;
use crate::data_body::DataBody;
use crate::port::Port;
use crate::rows::RowList;
use s38_base::{Id, ObjNum, Rights, Special, UserNum};
use s38_code::Code;
use s38_indexes::Index;
use s38_journals::Journal;
use s38_memory::Tagged;
use s38_queues::Queue;

/// What an object holds, by its kind.
#[derive(Drop)]
pub enum Body {
    Context,
    Program(Code),
    /// A user: special authorities, and how many pages it may own.
    Profile { special: Special, limit: u32 },
    /// Cells, each sixteen bytes or a pointer.
    Space(Tagged),
    Queue(Queue),
    Index(Index),
    DataSpace(DataBody),
    Cursor(Cursor),
    Port(Port),
    /// The entries of a journal space.
    Journal(Journal),
    Block(Block),
}

/// An encapsulated object.
#[derive(Drop)]
pub struct Object {
    pub number: ObjNum,
    pub id: Id,
    /// The context that holds it, or 0.
    pub context: ObjNum,
    pub owner: UserNum,
    /// The rights of everybody.
    pub public: Rights,
    pub rows: RowList,
    /// Whether it outlives the run: its number is one of those on disk.
    pub on_disk: bool,
    pub body: Body,
}
