ghost use Rattle.std.specs.Prelude.{◌≡◌};
ghost use Rattle.sg_program.specs.Statuses.{message_of, number_of, status_of};

/// How the program ends.
#[derive(Clone, Copy, Debug, PartialEq, Eq)]
pub enum Status {
    /// The source was read to its end, and out took the whole text.
    Done,
    /// The words have no form.
    Usage,
    /// The source gave no script, or more bytes than a script may have.
    Script,
    /// The source failed.
    ReadFault,
    /// Out failed. It took the front of the text.
    WriteFault,
    /// There was no memory.
    OutOfMemory,
}

/// How the program ends, and why.
#[derive(Debug, Drop)]
pub enum Exit {
    Done,
    Usage,
    /// The bytes are no script; this line says where and why.
    Refused(Vec<u8>),
    /// There are more bytes than a script may have.
    TooLong,
    ReadFault,
    WriteFault,
    OutOfMemory,
}

impl Status {
    /// The number that the process ends with.
    pub fn number(&self) -> u8
        ensures { result ≡ number_of self.now }
    {
        match self {
            Status::Done => 0,
            Status::Usage => 1,
            Status::Script => 2,
            Status::ReadFault => 3,
            Status::WriteFault => 4,
            Status::OutOfMemory => 5,
        }
    }
}

impl Exit {
    pub fn status(&self) -> Status
        ensures { result ≡ status_of self.now }
    {
        match self {
            Exit::Done => Status::Done,
            Exit::Usage => Status::Usage,
            Exit::Refused(_) | Exit::TooLong => Status::Script,
            Exit::ReadFault => Status::ReadFault,
            Exit::WriteFault => Status::WriteFault,
            Exit::OutOfMemory => Status::OutOfMemory,
        }
    }

    /// What the program says of its end. Of a good one it says nothing.
    pub fn message(&self) -> &[u8]
        ensures { result.now ≡ message_of self.now }
    {
        match self {
            Exit::Done => b"",
            Exit::Usage => {
                b"usage: spatial_cli replay [--workers N] [--labels] | threads [--workers N] [--labels] [--trace] | make SEED ROWS SESSIONS\n"
            }
            Exit::Refused(line) => line.as_slice(),
            Exit::TooLong => b"script too long\n",
            Exit::ReadFault => b"read fault\n",
            Exit::WriteFault => b"write fault\n",
            Exit::OutOfMemory => b"out of memory\n",
        }
    }
}
