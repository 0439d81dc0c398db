//! The files of the system, and how a put stores bytes under a name. If it can, it makes a new file beside the name
//! and then renames that over it, so that the name has its old bytes or all of the new ones at each moment.
ghost use Rattle.std.specs.Prelude.{◌≡◌, ◌≢◌, ◌++◌, codes, length, IfOk, OnOk, OnErr, true};
ghost use Rattle.std.specs.IoError.{error_kind};
ghost use Rattle.thy_block.specs.Outside.{Took};
ghost use Rattle.thy_out.specs.Written.{stream_of};
ghost use Rattle.thy_out.specs.Replacing.{one_done, one_failed, counted, refuses, ended_by, CountsAs};

use crate::side::Side;
use crate::target::Target;
use std::fs::{Files, Metadata, OpenFile, OpenOptions};
use std::io::{Error, ErrorKind};
use std::marker::Model;
use std::os::unix::fs::{MetadataExt, OpenOptionsExt, lchown};
use std::{fs, io};
use thy_block::SinkError;

/// The files that the runtime reaches, and two counts: how many times bytes were put, and how many times that failed at
/// a call. A name is a path.
#[derive(Drop)]
pub struct Disk<R> {
    rt: R,
    puts: u64,
    failures: u64,
}

impl<R> Model for Disk<R> {
    ghost use Rattle.thy_out.specs.Replacing.{Tally};

    ghost Value = { Tally };

    ghost view = { λ s. record { puts = s.puts; failures = s.failures } };
}

/// The outcome of a put by a new file.
#[derive(Clone, Copy, PartialEq, Eq)]
pub enum Replaced {
    /// The name has the new file.
    Done,
    /// The system does not let a file be made beside the name, or take its place: this kind of error says so.
    Refused(ErrorKind),
    /// A call failed.
    Failed,
}

/// What a name refers to.
#[derive(Drop)]
enum Standing {
    /// The name refers to nothing.
    Nothing,
    /// A file that has no other name and may be written.
    Alone(Metadata),
    /// A folder, a link, a pipe, a device, a file with several names or one that may not be written.
    Other,
}

/// Whether an error of this kind says that the system does not let a file be made, or renamed, in this place.
fn is_refusal(kind: ErrorKind) -> bool
    ensures { result ≡ refuses kind }
{
    matches!(
        kind,
        ErrorKind::PermissionDenied
            | ErrorKind::ReadOnlyFilesystem
            | ErrorKind::InvalidFilename
            | ErrorKind::AlreadyExists
            | ErrorKind::ResourceBusy
            | ErrorKind::Unsupported
    )
}

impl<R: Files> Disk<R> {
    /// The files that a runtime reaches, before any put.
    pub fn over(rt: R) -> Disk<R>
        ensures { result ≡ record { puts = 0; failures = 0 } }
    {
        Disk {
            rt,
            puts: 0,
            failures: 0,
        }
    }

    /// Opens the file of this name for reading.
    pub fn open(&self, name: &str) -> io::Result<R::File> {
        fs::open(&self.rt, name)
    }

    /// Counts a put of bytes that was done by this file: it took bytes of this length, and none of its calls has failed.
    fn succeed(&mut self, file: &Target<R::File>, bytes: &[u8])
        requires clean { file.now.failures ≡ 0 }
        requires whole { file.now.count ≡ length bytes.now }
        ensures { self.new ≡ one_done self.old }
    {
        self.puts = self.puts.saturating_add(1);
    }

    /// Counts a put that failed because a call of this file has failed.
    fn fail_at(&mut self, file: &Target<R::File>)
        requires failed { file.now.failures ≢ 0 }
        ensures { self.new ≡ one_failed self.old }
    {
        self.failures = self.failures.saturating_add(1);
    }

    /// Counts a put that failed with this error.
    fn fail_with(&mut self, _error: &Error)
        ensures { self.new ≡ one_failed self.old }
    {
        self.failures = self.failures.saturating_add(1);
    }

    /// What a name refers to. Whether a file may be written is tried by opening it, because a rename would
    /// replace it in any case.
    fn standing(&self, name: &str) -> Standing {
        match fs::symlink_metadata(&self.rt, name) {
            Ok(there) => {
                let alone = there.is_file() && there.nlink() < 2;
                if alone && OpenOptions::new().write(true).open(&self.rt, name).is_ok() {
                    Standing::Alone(there)
                } else {
                    Standing::Other
                }
            }
            Err(error) => {
                if error.kind() == ErrorKind::NotFound {
                    Standing::Nothing
                } else {
                    Standing::Other
                }
            }
        }
    }

    /// Removes a file that was made beside a name. If it can't be, it stays and is replaced by the next put.
    fn remove(&self, side: &Side) {
        let _removed = fs::remove_file(&self.rt, side.as_str());
    }

    /// Makes an empty file, in place of one that an interrupted put left.
    fn make(&self, side: &Side, options: &OpenOptions) -> io::Result<R::File> {
        if let Ok(there) = fs::symlink_metadata(&self.rt, side.as_str()) {
            if there.is_file() {
                self.remove(side);
            }
        }
        options.open(&self.rt, side.as_str())
    }

    /// Gives a new file the owner, the group and the mode of another.
    fn make_alike(&self, file: &R::File, side: &Side, other: &Metadata) -> io::Result<()> {
        let made = file.metadata()?;
        if made.uid() != other.uid() || made.gid() != other.gid() {
            lchown(
                &self.rt,
                side.as_str(),
                Some(other.uid()),
                Some(other.gid()),
            )?;
        }
        file.set_permissions(other.permissions())
    }

    /// Makes an empty file that can take the place of another.
    fn make_like(
        &self,
        side: &Side,
        options: &OpenOptions,
        other: &Metadata,
    ) -> io::Result<R::File> {
        let file = self.make(side, options)?;
        match self.make_alike(&file, side, other) {
            Ok(()) => Ok(file),
            Err(error) => {
                self.remove(side);
                Err(error)
            }
        }
    }

    /// What an error makes of a put by a new file.
    fn not_done(&mut self, error: &Error) -> Replaced
        ensures answer { result ≡ ended_by (error_kind error.now) }
        ensures counts { CountsAs self.old self.new result }
    {
        let kind = error.kind();
        if is_refusal(kind) {
            return Replaced::Refused(kind);
        }
        self.fail_with(error);
        Replaced::Failed
    }

    /// Renames the file beside a name over it. It has to have all of the bytes and to be synced, so that no crash leaves the
    /// name with a part of them.
    fn rename(&mut self, file: &Target<R::File>, side: &Side, name: &str, bytes: &[u8]) -> Replaced
        requires beside { side.now.path.bytes ≡ name.now ++ codes ".thynvm-new" }
        requires whole { file.now.count ≡ length bytes.now }
        requires synced { file.now.synced ≡ true }
        requires clean { file.now.failures ≡ 0 }
        ensures { CountsAs self.old self.new result }
    {
        match fs::rename(&self.rt, side.as_str(), name) {
            Ok(()) => {
                self.succeed(file, bytes);
                Replaced::Done
            }
            Err(error) => self.not_done(&error),
        }
    }

    /// Writes bytes to a new file and syncs it. If that fails, the put has failed, and is counted.
    fn fill(&mut self, file: &mut Target<R::File>, bytes: &[u8]) -> Result<(), SinkError>
        requires clean { file.old.failures ≡ 0 }
        requires fresh { file.old.count ≡ 0 }
        ensures took { OnOk result (Took (stream_of file.old) (stream_of file.new) bytes.now) }
        ensures whole { OnOk result (file.new.count ≡ length bytes.now) }
        ensures ok { OnOk result (self.new ≡ self.old) }
        ensures synced { OnOk result (file.new.synced ≡ true) }
        ensures clean { OnOk result (file.new.failures ≡ 0) }
        ensures err { OnErr result (self.new ≡ one_failed self.old) }
    {
        match file.fill(bytes) {
            Ok(()) => Ok(()),
            Err(error) => {
                self.fail_at(file);
                Err(error)
            }
        }
    }

    /// Writes bytes to a new file and has it take the place of the name.
    fn take_place(&mut self, file: R::File, side: &Side, name: &str, bytes: &[u8]) -> Replaced
        requires { side.now.path.bytes ≡ name.now ++ codes ".thynvm-new" }
        ensures { CountsAs self.old self.new result }
    {
        let mut file = Target::over(file);
        match self.fill(&mut file, bytes) {
            Ok(()) => self.rename(&file, side, name, bytes),
            Err(_) => Replaced::Failed,
        }
    }

    /// Makes a file beside a name, if the name refers to nothing or to a file that can be replaced.
    fn make_beside(&self, name: &str, side: &Side) -> io::Result<R::File> {
        let mut options = OpenOptions::new();
        options.write(true).create_new(true);
        match self.standing(name) {
            Standing::Nothing => self.make(side, &options),
            Standing::Alone(other) => self.make_like(side, options.mode(0o600), &other),
            Standing::Other => Err(Error::from(ErrorKind::Unsupported)),
        }
    }

    /// Stores bytes under a name by a new file, if that is possible.
    fn replace(&mut self, name: &str, bytes: &[u8]) -> Replaced
        ensures { CountsAs self.old self.new result }
    {
        let Some(side) = Side::of(name) else {
            return Replaced::Refused(ErrorKind::InvalidFilename);
        };
        match self.make_beside(name, &side) {
            Ok(file) => {
                let replaced = self.take_place(file, &side, name, bytes);
                if replaced != Replaced::Done {
                    self.remove(&side);
                }
                replaced
            }
            Err(error) => self.not_done(&error),
        }
    }

    /// Opens the file of this name for writing, and empties it.
    fn create(&mut self, name: &str) -> Result<Target<R::File>, SinkError>
        ensures clean { IfOk result (λ file. file.failures ≡ 0) }
        ensures fresh { IfOk result (λ file. file.count ≡ 0) }
        ensures ok { OnOk result (self.new ≡ self.old) }
        ensures err { OnErr result (self.new ≡ one_failed self.old) }
    {
        match fs::create(&self.rt, name) {
            Ok(file) => Ok(Target::over(file)),
            Err(error) => {
                self.fail_with(&error);
                Err(SinkError::Failed)
            }
        }
    }

    /// Writes bytes into what the name itself refers to. They are not synced, since a pipe can't be.
    fn write_over(&mut self, name: &str, bytes: &[u8]) -> Result<(), SinkError>
        ensures { self.new ≡ counted self.old result }
    {
        let mut file = self.create(name)?;
        match file.write(bytes) {
            Ok(()) => {
                self.succeed(&file, bytes);
                Ok(())
            }
            Err(error) => {
                self.fail_at(&file);
                Err(error)
            }
        }
    }

    /// Makes the name hold these bytes: by a new file, or, if the system does not let one take its place, by writing over
    /// what is there. By the contracts of its parts a file is renamed over the name only if it took bytes of this length, a
    /// sync of it had succeeded after the last write, and none of its calls failed. A put succeeds exactly if one was
    /// counted as done; otherwise one was counted as failed.
    pub fn put(&mut self, name: &str, bytes: &[u8]) -> Result<(), SinkError>
        ensures { self.new ≡ counted self.old result }
    {
        match self.replace(name, bytes) {
            Replaced::Done => Ok(()),
            Replaced::Refused(_) => self.write_over(name, bytes),
            Replaced::Failed => Err(SinkError::Failed),
        }
    }
}
