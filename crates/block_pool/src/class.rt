//! The size classes of slots, numbered from 0.
//!
//! All slots of a class are equally wide, in words of 64 bits. Class k is meant for blocks of at most 2^k words that no
//! lower class has room for, so 17 classes go as far as blocks of 65,536 words; a smaller block lies at the front of its
//! slot. A pool by `Pool::open_classes` has slots of each class, and each class names its own. A pool by `Pool::open`
//! has slots of one width, those of the last class, and every class names these.

/// How many size classes there are.
pub const CLASSES: usize = 17;

/// The last class: the one whose slots every class names in a pool of one width.
pub const LAST_CLASS: u32 = 16;
