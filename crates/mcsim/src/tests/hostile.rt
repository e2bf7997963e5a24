//! Flashes that no swap left: whole pages by their digests, and how many schedules there are, as a model that shares no code with
//! this repository computed them.
use super::support::{Table, all_play};

/// The page and the census of a flash.
const STEPS: &str = "\
$ explore WORKED --flash in OPTIONS < BEGUN,976=50000000,CHANGES
lines LINES SHA
$ census WORKED --flash in OPTIONS < BEGUN,976=50000000,CHANGES
schedules ROWS
...
";

/// A line has the bytes of the worked flash that are not 0xff, by their offsets, beside the primary's magic and a swap-size of
/// 80; how many lines the page has, and the SHA-256 of its text; how many schedules there are; and the options.
const FLASHES: &str = "\
984=02 2 ba9b78a7f0eeca7850929afce484c299275c2a77061d5b571cf22c272e568903 1 --cuts 0
984=02 16 5c6efe2210dbc6b3425669b0df2c9d5b9f906b18224adc740c84b571ac6fb209 15 --cuts 1
984=02 143 a98b227ffc74fffdb4a1cc9d97c9f8606d665c4d2167253c38663066c6b6bce5 142 --cuts 2
984=02 106 b388c63d6d864ba676e31b943bd7d5dbbd1da4b5dda6cde6634e205129b0b744 105 --cuts 1 --grain unit --profile 2
984=03 2 81d23ddb73e7c1dba5edf2a6a5cfd8f428ddd9e8cff8f3e03f4a09a1369b3592 1 --cuts 0
984=03 17 67d47e74be2033a680a15330b81d434e86fa4797a497adac9f67045573c46ca1 16 --cuts 1
984=03 159 755c4e4815edc23c45655da9a8832c7feb28ffda35af074dbb68884ac76f4cb1 158 --cuts 2
984=03 107 0ff677d0f71b18ea866bc152ef0e57a771562c78839fd90b5bc53c8e578d90fa 106 --cuts 1 --grain unit --profile 2
984=13 2 861d81574151324cacd0fccd28d363570bd17a872e05b37b1ef62384f76d4ba4 1 --cuts 0
984=13 2 861d81574151324cacd0fccd28d363570bd17a872e05b37b1ef62384f76d4ba4 1 --cuts 1
984=13 2 861d81574151324cacd0fccd28d363570bd17a872e05b37b1ef62384f76d4ba4 1 --cuts 2
984=13 2 861d81574151324cacd0fccd28d363570bd17a872e05b37b1ef62384f76d4ba4 1 --cuts 1 --grain unit --profile 2
984=02,993=00 2 bd28f482347b104741d73d8ab2a1797a93293ed7cfa319dcf8b7d3b492607b3a 1 --cuts 0
984=02,993=00 15 ae1c1be752c0f4fd254f9f9910210a8a739e79d8600eb0f406d6c800ee7b4a59 14 --cuts 1
984=02,993=00 128 e441b2df81cf34b7bf187a70def390b5867a07c96a2eb49175921aaa69b6c7ee 127 --cuts 2
984=02,993=00 105 f82b89be14403edf70d3c6765618532c950c7004242ace8fd36b7f882c954176 104 --cuts 1 --grain unit --profile 2
984=04 2 3ac500bbb8efc99c7116a1deaff87d83f4d71b028b6cfc77a98df53c434ca762 1 --cuts 0
984=04 17 687be811d485cbe72c390085150a24514de1fecec1c7bf311f7553307f0284e5 16 --cuts 1
984=04 159 babcb463ee253a7db1c118dc071519debf9c82f001a994203086fd952a1cb8ee 158 --cuts 2
984=04 107 5bf5c0d9ced2f834edfd589d7a215bafb439b2284dc56cf9e942908cd43bd2e1 106 --cuts 1 --grain unit --profile 2
984=02,1000=00 2 dec8ebd67dc82031ba073dbb2fdcd7d18ce5dd222ca01ffa472b21a415ab5946 1 --cuts 0
984=02,1000=00 16 88266a210b763d53be835d7c07a9377e52a53f2e5437efadcf26d53f644df126 15 --cuts 1
984=02,1000=00 143 5a0ddb6549055b1cbc3bcf8a035b601a85093c26897c308b425c995cee103034 142 --cuts 2
984=02,1000=00 106 952ac382aede3703e02ad671cb425579f8b6b41967bf4b0606589abbf605c653 105 --cuts 1 --grain unit --profile 2
984=03,888=01 2 33364d900a10f71f2c2f851a3d041b27169b0f15063d23780227e3363fde590f 1 --cuts 0
984=03,888=01 2 33364d900a10f71f2c2f851a3d041b27169b0f15063d23780227e3363fde590f 1 --cuts 1
984=03,888=01 2 33364d900a10f71f2c2f851a3d041b27169b0f15063d23780227e3363fde590f 1 --cuts 2
984=03,888=01 2 33364d900a10f71f2c2f851a3d041b27169b0f15063d23780227e3363fde590f 1 --cuts 1 --grain unit --profile 2
984=02,920=01,993=00 2 4fccc80d808e3bd004efa24b8fe5d5930abd305d469be30e7da2911f14672086 1 --cuts 0
984=02,920=01,993=00 2 4fccc80d808e3bd004efa24b8fe5d5930abd305d469be30e7da2911f14672086 1 --cuts 1
984=02,920=01,993=00 2 4fccc80d808e3bd004efa24b8fe5d5930abd305d469be30e7da2911f14672086 1 --cuts 2
984=02,920=01,993=00 2 4fccc80d808e3bd004efa24b8fe5d5930abd305d469be30e7da2911f14672086 1 --cuts 1 --grain unit --profile 2
984=02,881=00 2 78b0c21b99a27e2276d4fd95bdb06dae71294532654fcd1bbfa3f72a11930a7c 1 --cuts 0
984=02,881=00 11 b9fec196549a1ddfb87ad9644b54ea6cedad61c8721d802863e197b5e77ba2cd 10 --cuts 1
984=02,881=00 68 89c1913c8154a50533d910441728ef8888d36da82279277ee49b71fbd9539c45 67 --cuts 2
984=02,881=00 71 0ea92908fecf35dc9f15a1673017e854ff875e839a6333a5438a9fac8b5b7317 70 --cuts 1 --grain unit --profile 2
";

static TABLES: [Table; 1] = [(
    STEPS,
    &["CHANGES", "LINES", "SHA", "ROWS", "OPTIONS"],
    FLASHES,
)];

#[test]
fn hostile_flashes_are_explored(rt: HostRuntime) {
    all_play(&rt, rt.alloc(), &TABLES)
}
