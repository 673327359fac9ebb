//! What the lines have written so far: the files, and the conditions and facts of the next run.
use crate::amiss::Amiss;
use crate::asks::Ask;
use crate::conditions::Conditions;
use crate::lines::Page;
use crate::said::{Order, say_patch, say_run};
use crate::shelf::Shelf;
use crate::sweeps::say_sweep;
use crate::words::first_word;
use std::alloc::{AllocError, Global};
use std::mem;
use std::thread::Threads;

/// The files that are kept, the one that is being written, and the conditions and facts of the next run.
#[derive(Drop)]
pub(crate) struct Desk {
    alloc: Global,
    shelf: Shelf,
    page: Page,
    order: Order,
}

impl Desk {
    pub(crate) fn new(alloc: Global) -> Result<Desk, AllocError> {
        Ok(Desk {
            alloc,
            shelf: Shelf::new(alloc)?,
            page: Page::new(alloc),
            order: Order::free(alloc)?,
        })
    }

    /// Does what a line says, and adds what is to be printed.
    pub(crate) fn take<R: Threads + Sync + AllocGlobal>(
        &mut self,
        rt: &R,
        line: &str,
        said: &mut String,
    ) -> Result<(), Amiss> {
        let (head, rest) = first_word(line);
        match head {
            "run" | "patch" | "sweep" => self.run(rt, head, rest, said),
            "label" => {
                writeln!(said, "== {rest}")?;
                Ok(())
            }
            _ => self.note(head, rest, line),
        }
    }

    // Notes what a line says of the next run, or of a file.
    fn note(&mut self, head: &str, rest: &str, line: &str) -> Result<(), Amiss> {
        match head {
            "on" => self.order.on.add(self.alloc, rest),
            "ask" => self.ask(rest),
            "keep" => self.keep(rest),
            "forget" => self.forget(),
            _ => self.write(line),
        }
    }

    // Asks for what a line says.
    fn ask(&mut self, line: &str) -> Result<(), Amiss> {
        let ask = Ask::of(self.alloc, line)?;
        self.order.asks.push(ask)?;
        Ok(())
    }

    // Keeps none of the files any more.
    fn forget(&mut self) -> Result<(), Amiss> {
        self.shelf = Shelf::new(self.alloc)?;
        Ok(())
    }

    // Keeps the file under a name, and begins the next one.
    fn keep(&mut self, name: &str) -> Result<(), Amiss> {
        let page = mem::replace(&mut self.page, Page::new(self.alloc));
        self.shelf.keep(self.alloc, name, page.into_bytes())?;
        Ok(())
    }

    // Writes what a line says, if it says anything.
    fn write(&mut self, line: &str) -> Result<(), Amiss> {
        if line.is_empty() || line.starts_with('#') {
            return Ok(());
        }
        self.page.write(&self.shelf, line)
    }

    // Runs what a line says under the conditions that were set, which are then free again.
    fn run<R: Threads + Sync + AllocGlobal>(
        &mut self,
        rt: &R,
        head: &str,
        rest: &str,
        said: &mut String,
    ) -> Result<(), Amiss> {
        let mut order = mem::replace(&mut self.order, Order::free(self.alloc)?);
        match head {
            "run" => say_run(rt, &self.shelf, rest, &order, said),
            "patch" => say_patch(rt, &self.shelf, rest, &order, said),
            _ => say_sweep(rt, &self.shelf, rest, &mut order.on, said),
        }
    }
}
