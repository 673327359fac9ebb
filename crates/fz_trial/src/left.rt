//! How a run ended, and what it left.
use crate::shelf::Shelf;
use fz_app::Status;
use std::alloc::AllocError;
use std::str;

/// How a run ended, the bytes that it left, what it printed, how many calls of the source and of the sink failed, and how many
/// bytes are live after it.
#[derive(Clone, Copy)]
pub(crate) struct Left<'a> {
    pub(crate) status: Status,
    pub(crate) file: &'a [u8],
    pub(crate) text: &'a [u8],
    pub(crate) faults: (u64, u64),
    pub(crate) live: u64,
}

impl Left<'_> {
    /// Adds a line with the status, the name of the file and what is otherwise than after most runs, and the text.
    pub(crate) fn add_to(&self, said: &mut String, shelf: &Shelf) -> Result<(), AllocError> {
        self.add_end(said, shelf)?;
        self.add_faults(said)?;
        self.add_live(said)?;
        self.add_text(said)
    }

    // Adds the status and the name of the file.
    fn add_end(&self, said: &mut String, shelf: &Shelf) -> Result<(), AllocError> {
        let status = self.status.number();
        let file = shelf.called(self.file);
        write!(said, "{status} {file}")
    }

    // Adds how many calls failed, if any did.
    fn add_faults(&self, said: &mut String) -> Result<(), AllocError> {
        let (source, sink) = self.faults;
        if source == 0 && sink == 0 {
            return Ok(());
        }
        write!(said, " faults {source} {sink}")
    }

    // Adds how many bytes are live, if any are.
    fn add_live(&self, said: &mut String) -> Result<(), AllocError> {
        let live = self.live;
        if live == 0 {
            return Ok(());
        }
        write!(said, " live {live}")
    }

    // Adds the end of the line and what was printed.
    fn add_text(&self, said: &mut String) -> Result<(), AllocError> {
        let text = str::from_utf8(self.text).unwrap_or("no text\n");
        said.push_str("\n")?;
        said.push_str(text)?;
        if text.is_empty() || text.ends_with('\n') {
            return Ok(());
        }
        said.push_str("\n")
    }
}
