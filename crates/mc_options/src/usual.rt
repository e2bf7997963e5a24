//! What MCUboot's image format calls the types of entries and the flags of a header (`image.h`).
use std::io;
use std::io::Write;

/// A type of entries, and its name.
static ENTRIES: [(u16, &str); 23] = [
    (0x01, "KEYHASH"),
    (0x02, "PUBKEY"),
    (0x10, "SHA256"),
    (0x11, "SHA384"),
    (0x12, "SHA512"),
    (0x20, "RSA2048_PSS"),
    (0x21, "ECDSA224"),
    (0x22, "ECDSA_SIG"),
    (0x23, "RSA3072_PSS"),
    (0x24, "ED25519"),
    (0x25, "SIG_PURE"),
    (0x30, "ENC_RSA2048"),
    (0x31, "ENC_KW"),
    (0x32, "ENC_EC256"),
    (0x33, "ENC_X25519"),
    (0x40, "DEPENDENCY"),
    (0x50, "SEC_CNT"),
    (0x60, "BOOT_RECORD"),
    (0x70, "DECOMP_SIZE"),
    (0x71, "DECOMP_SHA"),
    (0x72, "DECOMP_SIGNATURE"),
    (0x80, "UUID_VID"),
    (0x81, "UUID_CID"),
];

/// A flag of a header, and its name.
static FLAGS: [(u32, &str); 9] = [
    (0x001, "PIC"),
    (0x004, "ENCRYPTED_AES128"),
    (0x008, "ENCRYPTED_AES256"),
    (0x010, "NON_BOOTABLE"),
    (0x020, "RAM_LOAD"),
    (0x100, "ROM_FIXED"),
    (0x200, "COMPRESSED_LZMA1"),
    (0x400, "COMPRESSED_LZMA2"),
    (0x800, "COMPRESSED_ARM_THUMB"),
];

/// The name of a type of entries, if it has one.
pub fn entry_name(kind: u16) -> Option<&'static str> {
    let (_, name) = ENTRIES.iter().find(|(known, _)| *known == kind)?;
    Some(*name)
}

/// Prints the name of each of some flags that has one, each after a space.
///
/// # Errors
///
/// Where the output fails.
pub fn print_flags<E: Write>(flags: u32, err: &mut E) -> io::Result<()> {
    for (flag, name) in &FLAGS {
        if flags & *flag != 0 {
            write!(err, " {name}")?;
        }
    }
    Ok(())
}
