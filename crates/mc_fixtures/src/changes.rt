//! Bytes that are changed as a test says.
use crate::named;
use hex::FromHexError;
use std::alloc::Global;

/// Named bytes, or those of some digits.
fn bytes_of(alloc: Global, text: &str) -> Result<Vec<u8>, FromHexError> {
    match named(text) {
        Some(file) => Ok(file.to_vec(alloc)?),
        None => hex::decode(alloc, text),
    }
}

/// Puts bytes at an offset. What there is no room for is left out.
fn put(bytes: &mut [u8], offset: usize, new: &[u8]) {
    for (old, byte) in bytes.iter_mut().skip(offset).zip(new) {
        *old = *byte;
    }
}

/// Puts named bytes, or those of some digits, at an offset, as in `0=first` or `984=02`. What there is no room for is left out.
///
/// # Errors
///
/// `InvalidStringLength` where no offset is given; those of the digits; `OutOfMemory`.
pub fn change_at(alloc: Global, bytes: &mut [u8], text: &str) -> Result<(), FromHexError> {
    let Some((offset, text)) = text.split_once('=') else {
        return Err(FromHexError::InvalidStringLength);
    };
    let Ok(offset) = offset.parse::<usize>() else {
        return Err(FromHexError::InvalidStringLength);
    };
    put(bytes, offset, bytes_of(alloc, text)?.as_slice());
    Ok(())
}
