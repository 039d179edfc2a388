//! What a connection meets.

use cases::number_of;

/// Room for the answers to a few requests.
const ROOM: u64 = 20_000;

/// Which reads and which write fail, how much can be written, and the like. A number is 0 where nothing is said of it.
#[derive(Clone, Copy, Drop)]
pub(crate) struct Conditions {
    /// Whether nothing is said at all.
    pub plain: bool,
    /// The first read that fails.
    pub read: u64,
    /// The last one, where each fails in turn.
    pub last_read: u64,
    /// How many bytes more are taken than where the first one fails. They are told as left.
    pub taken: u64,
    /// The write or flush that fails.
    pub write: u64,
    /// How many bytes can be written.
    pub room: u64,
    /// The move of the table that finds no memory.
    pub lacks: u64,
    /// Whether it is a link.
    pub is_link: bool,
    /// The read, write or flush of the link that fails.
    pub link: u64,
    /// How many bytes one read gives.
    pub piece: u64,
    /// How many bytes that were written aren't told.
    pub from: u64,
    /// How many bytes were written behind which nothing is told.
    pub until: u64,
}

impl Conditions {
    fn none() -> Conditions {
        Conditions {
            plain: true,
            read: 0,
            last_read: 0,
            taken: 0,
            write: 0,
            room: ROOM,
            lacks: 0,
            is_link: false,
            link: 0,
            piece: 9,
            from: 0,
            until: u64::MAX,
        }
    }

    /// Reads one condition: a word and a number or two.
    fn add(&mut self, condition: &[u8]) {
        let mut words = condition.split(|b| *b == b' ');
        let name = words.next().unwrap_or(b"");
        let first = number_of(words.next().unwrap_or(b""));
        let second = number_of(words.next().unwrap_or(b""));
        self.plain = false;
        match name {
            b"read" => {
                self.read = first;
                self.last_read = first.max(second);
            }
            b"write" => self.write = first,
            b"room" => self.room = first,
            b"memory" => self.lacks = first,
            b"link" => {
                self.is_link = true;
                self.link = first;
            }
            b"piece" => self.piece = first,
            b"show" => {
                self.from = first;
                self.until = second;
            }
            _ => {}
        }
    }

    /// The same where that read fails and not the first one, before which one byte more was taken for each read.
    pub(crate) fn with_read(self, read: u64) -> Conditions {
        let mut later = self;
        later.taken = read.saturating_sub(self.read);
        later.read = read;
        later
    }

    /// Conditions with `,` between.
    pub(crate) fn read(field: &[u8]) -> Conditions {
        let mut conditions = Conditions::none();
        if !field.is_empty() {
            for condition in field.split(|b| *b == b',') {
                conditions.add(condition);
            }
        }
        conditions
    }
}
