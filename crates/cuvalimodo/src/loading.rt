// The files that the words name.
use files::Fault;
use std::io;

// Reads the file that a word names into a buffer, and gives how many bytes it has; or says why it cannot be had. A file that is named by
// default is looked for where the program lies, too.
pub fn load(
    rt: HostRuntime,
    words: &[u8],
    at: usize,
    buffer: &mut [u8],
) -> io::Result<Option<usize>> {
    let name = commandline::word(words, at);
    let opened = if at < commandline::ARGUMENTS {
        files::open_own(&rt, name)
    } else {
        files::open_read(&rt, name)
    };
    let mut file = match opened {
        Ok(file) => file,
        Err(error) => {
            messages::failed(rt, name, error)?;
            return Ok(None);
        }
    };
    match files::read_whole(&mut file, buffer) {
        Ok(bytes) => return Ok(Some(bytes)),
        Err(unread) => match unread.fault {
            Fault::TooLarge => messages::too_large(rt, name)?,
            Fault::Failed(error) => messages::failed(rt, name, error)?,
        },
    }
    Ok(None)
}
