// The images of the two cards as files. Each is written whole under a name of its own, and gets the name that was asked for only once
// both are. What fails leaves both names as they were.
use crate::Stop;
use label::cards::Images;
use std::alloc::Global;
use std::fs::File;
use std::io::{ErrorKind, Write};
use std::{fs, io};

// No card may have a name that ends in one of these, so that what lies beside one card is never the other card, nor what lies beside it.
const HALF: &str = ".part";

const KEPT: &str = ".part.old";

// A name that a card may be given, and the two beside it.
#[derive(Drop)]
struct Place {
    name: String,
    half: String,
    // Where to keep what stands under the name until both cards have theirs.
    kept: String,
}

// An image that is whole, but under the name `half`. It is not `Drop`, so that no caller lets it go: it is given its name or taken away.
struct Written {
    place: Place,
}

// An image under its name, and where the older one is kept, if there was one.
struct Named {
    name: String,
    kept: Option<String>,
}

// Writes both cards, or neither.
pub(crate) fn write_both(
    rt: &HostRuntime,
    data: String,
    tree: String,
    images: &Images,
) -> Result<(), Stop> {
    if data.as_str() == tree.as_str() {
        return Err(Stop::OneName);
    }
    // Both names are looked at first, so that a wrong one is told before anything is written.
    let data = Place::new(rt, data)?;
    let tree = Place::new(rt, tree)?;
    let data = Written::new(rt, data, &images.volume)?;
    match Written::new(rt, tree, &images.tree) {
        Ok(tree) => name_both(rt, data, tree),
        Err(stop) => {
            data.remove(rt);
            Err(stop)
        }
    }
}

fn name_both(rt: &HostRuntime, data: Written, tree: Written) -> Result<(), Stop> {
    let data = match data.give_name(rt) {
        Ok(data) => data,
        Err(stop) => {
            tree.remove(rt);
            return Err(stop);
        }
    };
    match tree.give_name(rt) {
        Ok(tree) => {
            data.forget_old(rt);
            tree.forget_old(rt);
            Ok(())
        }
        Err(stop) => {
            data.undo(rt);
            Err(stop)
        }
    }
}

impl Place {
    fn new(rt: &HostRuntime, name: String) -> Result<Place, Stop> {
        if name.as_str().ends_with(HALF) || name.as_str().ends_with(KEPT) {
            return Err(Stop::HalfName(name));
        }
        let half = beside(rt.alloc(), name.as_str(), HALF)?;
        let kept = beside(rt.alloc(), name.as_str(), KEPT)?;
        match look(rt, name.as_str(), half.as_str(), kept.as_str()) {
            Ok(()) => Ok(Place { name, half, kept }),
            Err(error) => Err(refused(name, error)),
        }
    }
}

impl Written {
    fn new(rt: &HostRuntime, place: Place, blocks: &[[u8; 512]]) -> Result<Written, Stop> {
        match write_new(rt, place.half.as_str(), blocks) {
            Ok(()) => Ok(Written { place }),
            Err(error) => Err(refused(place.name, error)),
        }
    }

    fn remove(self, rt: &HostRuntime) {
        let Written { place } = self;
        remove(rt, place.half.as_str());
    }

    fn give_name(self, rt: &HostRuntime) -> Result<Named, Stop> {
        let Written {
            place: Place { name, half, kept },
        } = self;
        match replace(rt, name.as_str(), half.as_str(), kept.as_str()) {
            Ok(replaced) => Ok(Named {
                name,
                kept: if replaced { Some(kept) } else { None },
            }),
            Err(error) => {
                remove(rt, half.as_str());
                Err(Stop::Card { name, error })
            }
        }
    }
}

impl Named {
    fn forget_old(self, rt: &HostRuntime) {
        let Named { name: _, kept } = self;
        if let Some(kept) = kept {
            remove(rt, kept.as_str());
        }
    }

    // Leaves what stood there before, or nothing.
    fn undo(self, rt: &HostRuntime) {
        let Named { name, kept } = self;
        match kept {
            Some(kept) => restore(rt, kept.as_str(), name.as_str()),
            None => remove(rt, name.as_str()),
        }
    }
}

fn beside(heap: Global, name: &str, ending: &str) -> io::Result<String> {
    Ok(format!(in heap; "{name}{ending}")?)
}

// Why a card cannot be written. A file beside it is told apart, as it is not the one that was named.
fn refused(name: String, error: io::Error) -> Stop {
    match error.kind() {
        ErrorKind::AlreadyExists => Stop::InTheWay(name),
        _ => Stop::Card { name, error },
    }
}

// A renaming would replace what a run that was cut off has left beside a card.
fn look(rt: &HostRuntime, name: &str, half: &str, kept: &str) -> io::Result<()> {
    refuse_other(rt, name)?;
    if is_there(rt, half)? || is_there(rt, kept)? {
        return Err(ErrorKind::AlreadyExists.into());
    }
    Ok(())
}

// A link that leads nowhere is there too.
fn is_there(rt: &HostRuntime, name: &str) -> io::Result<bool> {
    match fs::symlink_metadata(rt, name) {
        Ok(_) => Ok(true),
        Err(error) if error.kind() == ErrorKind::NotFound => Ok(false),
        Err(error) => Err(error),
    }
}

// Nothing but a file may be replaced: a name may be that of a directory, or of a device that is written to by mistake.
fn refuse_other(rt: &HostRuntime, name: &str) -> io::Result<()> {
    match fs::metadata(rt, name) {
        Ok(there) if there.is_file() => Ok(()),
        Ok(there) if there.is_dir() => Err(ErrorKind::IsADirectory.into()),
        Ok(_) => Err(io::Error::other("not a regular file")),
        Err(error) if error.kind() == ErrorKind::NotFound => Ok(()),
        Err(error) => Err(error),
    }
}

// Makes a file that was not there, or leaves none.
fn write_new(rt: &HostRuntime, name: &str, blocks: &[[u8; 512]]) -> io::Result<()> {
    let mut file = File::create_new(rt, name)?;
    let written = file
        .write_all(blocks.as_flattened())
        .and_then(|()| file.sync_all());
    if written.is_err() {
        remove(rt, name);
    }
    written
}

// Renames a file, keeps what stood under its new name, and says whether something did.
fn replace(rt: &HostRuntime, name: &str, half: &str, kept: &str) -> io::Result<bool> {
    let replaced = match fs::rename(rt, name, kept) {
        Ok(()) => true,
        Err(error) if error.kind() == ErrorKind::NotFound => false,
        Err(error) => return Err(error),
    };
    let renamed = fs::rename(rt, half, name);
    if renamed.is_err() && replaced {
        restore(rt, kept, name);
    }
    renamed.map(|()| replaced)
}

// What is left over is cleared away as well as it can be; the failure before it is what the program tells.
fn remove(rt: &HostRuntime, name: &str) {
    let _ = fs::remove_file(rt, name);
}

fn restore(rt: &HostRuntime, kept: &str, name: &str) {
    let _ = fs::rename(rt, kept, name);
}
