//! Disks: a file's bytes that are read, written, cut and brought to rest, with what a crash may leave of them. They are for
//! journals.
//!
//! What a crash leaves is part of each contract of [`Disk`]: what one may leave now, and what one at some moment since an earlier
//! moment might have left, within a call too. So who makes calls can say of each of his own what a crash in it leaves. Between two
//! syncs each range that was written, and what lies past the old end, may hold any bytes; a sync that succeeds brings the file to
//! rest, and a crash then leaves what a read gives. A call answers [`Failed`](os_io::Failed) only where the disk's count of faults
//! rose, or stands at 2^64 - 1.
//!
//! [`FileDisk`] is a file of the system, of which nothing is told: that the system keeps what the model says is trusted, as POSIX has
//! it (IEEE Std 1003.1, `pread`, `pwrite`, `ftruncate` and `fdatasync`). [`Stores`] opens disks by name and takes them back:
//! [`FileStores`] the system's files.
#![tactic(auto)]

mod disk;
mod file_disk;
mod file_stores;
mod stores;

pub use disk::Disk;
pub use file_disk::FileDisk;
pub use file_stores::FileStores;
pub use stores::Stores;
