// What is printed, to a writer that may fail: from the first failure on nothing is written.
use std::io;
use std::io::Write;
use std::process::ExitCode;
use streams::exit_code;

pub(crate) struct Sink<W> {
    writer: W,
    written: io::Result<()>,
}

impl<W: Write> Sink<W> {
    pub(crate) fn new(writer: W) -> Sink<W> {
        Sink {
            writer,
            written: Ok(()),
        }
    }

    // The bytes, to the writer; none where a buffer had not so many.
    pub(crate) fn print(&mut self, bytes: Option<&[u8]>) {
        if let Some(bytes) = bytes
            && self.written.is_ok()
        {
            self.written = self.writer.write_all(bytes);
        }
    }

    pub(crate) fn has_failed(&self) -> bool {
        self.written.is_err()
    }
}

impl<W: Write + Drop> Sink<W> {
    // How the program ends.
    pub(crate) fn end(self) -> io::Result<ExitCode> {
        let Sink { writer: _, written } = self;
        exit_code(written)
    }
}
