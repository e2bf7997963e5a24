//! Options of imgtool's `create` and `sign` that are left out here, and what does what they do.

/// Options of imgtool that are left out.
struct LeftOut {
    names: &'static [&'static str],
    /// What does what they do.
    instead: &'static str,
}

static LEFT_OUT: [LeftOut; 8] = [
    LeftOut {
        names: &[
            "-k",
            "--key",
            "--public-key-format",
            "--sig-out",
            "--fix-sig",
            "--fix-sig-pubkey",
            "--vector-to-sign",
            "--pad-sig",
            "--pure",
        ],
        instead: "signing: imgtool sign -k",
    },
    LeftOut {
        names: &[
            "-E",
            "--encrypt",
            "--encrypt-keylen",
            "--save-enctlv",
            "--clear",
        ],
        instead: "encryption: imgtool sign -E (no command here reads an encrypted image)",
    },
    LeftOut {
        names: &[
            "-d",
            "--dependencies",
            "--custom-tlv",
            "--boot-record",
            "--vid",
            "--cid",
        ],
        instead: "entries besides the digest and the security counter: imgtool sign",
    },
    LeftOut {
        names: &["-L", "--load-addr", "-F", "--rom-fixed", "--non-bootable"],
        instead: "a load address or a flag: imgtool sign (no command here reads an image with flags)",
    },
    LeftOut {
        names: &["-x", "--hex-addr"],
        instead: "Intel HEX: objcopy -O binary before, objcopy -I binary -O ihex after",
    },
    LeftOut {
        names: &["--compression"],
        instead: "compression: imgtool sign (no command here reads a compressed image)",
    },
    LeftOut {
        names: &["--overwrite-only"],
        instead: "overwriting: the image is the same without it",
    },
    LeftOut {
        names: &["--max-align"],
        instead: "write units above 8: imgtool sign (for those up to 8 --align is enough)",
    },
];

/// Whether a word gives an option of that name: alone, before `=`, or, where the name is one letter, before its value.
fn gives(word: &str, name: &str) -> bool {
    match word.strip_prefix(name) {
        Some(rest) => rest.is_empty() || rest.starts_with('=') || !name.starts_with("--"),
        None => false,
    }
}

/// The name of an option in a word, if these are options that are left out and it gives one of them.
fn name_in(left_out: &LeftOut, word: &str) -> Option<&'static str> {
    left_out
        .names
        .iter()
        .copied()
        .find(|name| gives(word, name))
}

/// The name of the option of imgtool that a word of `create` gives, and what does what that does, if it is one that is left out.
pub fn left_out(word: &str) -> Option<(&'static str, &'static str)> {
    for options in &LEFT_OUT {
        if let Some(name) = name_in(options, word) {
            return Some((name, options.instead));
        }
    }
    None
}
