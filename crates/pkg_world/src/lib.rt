//! The world that jlpkg reads and writes: names, paths, lists, the place of a command, and the store and
//! the sink through which every byte comes and goes, with stores and sinks in memory for tests.
#![tactic(auto)]

mod asking;
mod cause;
mod list;
mod mem;
mod named;
mod path;
mod pieces;
mod place;
mod sink;
mod store;
mod sure;
mod text;
mod tree;
mod tree_id;
mod values;
mod writing;

pub use asking::{Unread, file_at, is_file, is_folder, names_in};
pub use cause::{Cause, LimitKind};
pub use list::{Bytes, Ids, Listed, Names, NormPaths, States, TextList};
pub use mem::{MemSink, MemStore, PutFail, StoreCall};
pub use named::{NameIds, Named};
pub use path::{NormPath, PathFault};
pub use pieces::first_piece;
pub use place::{Home, Place};
pub use sink::{PutAnswer, Sink};
pub use store::{KindAnswer, ListAnswer, ReadAnswer, Store, WriteAnswer};
pub use sure::{SureSink, SureStore};
pub use text::{Duplicate, Name, Text};
pub use tree_id::TreeId;
pub use values::{ExtList, Values};
pub use writing::writing_sets_one_path;
