//! What the first bytes of a file say that is no image which is read here.
use crate::usual::print_flags;
use mc_image::{ImageError, Version};
use std::io::{Read, Write};
use std::rt::Files;
use std::{fs, io};

/// Whether a file begins as one in Intel's hexadecimal form does: a colon, and then 10 digits.
pub fn is_hex_file<F: Files>(files: &F, path: &str) -> bool {
    let mut head = [0; 11];
    match fs::open(files, path) {
        Ok(mut file) => {
            file.read_exact(&mut head).is_ok()
                && head[0] == b':'
                && head[1..].iter().all(|byte| byte.is_ascii_hexdigit())
        }
        Err(_) => false,
    }
}

/// Prints what the first bytes of a file say that is refused as an image: that it looks like Intel HEX, or what stands in a header with
/// flags.
///
/// # Errors
///
/// Where the output fails.
pub fn report_head<F: Files, E: Write>(
    files: &F,
    path: &str,
    error: ImageError,
    err: &mut E,
) -> io::Result<()> {
    match error {
        ImageError::BadMagic if is_hex_file(files, path) => writeln!(
            err,
            "mcsim: {path} looks like Intel HEX (objcopy -I ihex -O binary)"
        ),
        ImageError::UnsupportedFlags => report_header(files, path, err),
        _ => Ok(()),
    }
}

/// Prints the version, the sizes and the flags of a file's header.
///
/// # Errors
///
/// Where the output fails.
fn report_header<F: Files, E: Write>(files: &F, path: &str, err: &mut E) -> io::Result<()> {
    let mut head = [0; 32];
    let is_read = match fs::open(files, path) {
        Ok(mut file) => file.read_exact(&mut head).is_ok(),
        Err(_) => false,
    };
    if !is_read {
        return Ok(());
    }
    let size = u16::from_le_bytes([head[8], head[9]]);
    let payload = u32::from_le_bytes([head[12], head[13], head[14], head[15]]);
    let flags = u32::from_le_bytes([head[16], head[17], head[18], head[19]]);
    let version = Version {
        major: head[20],
        minor: head[21],
        revision: u16::from_le_bytes([head[22], head[23]]),
        build: u32::from_le_bytes([head[24], head[25], head[26], head[27]]),
    };
    write!(
        err,
        "mcsim: {path} has version {version}, a header of {size} bytes, a payload of {payload}, flags {flags:#x}"
    )?;
    print_flags(flags, err)?;
    writeln!(err)
}
