// Replays a fixed list of the unchanged Rust's answers. The list begins with five numbers of eight bytes: how many
// scripts, fields, pairs of rivals, event files and lists of events follow, in this order, each with the Rust's answers
// behind it. A file or a list is a case, as `caselist` has them, behind its length, four bytes; it may be 16,384 at most.
// Prints in that order how many of each agree with ours, of how many, a line each, and how many bytes stand behind the
// list (at most 40 are looked for).
//
// Whether a record or a case is whole and agrees, and the count of those that do, stand in the contracts of `replay` and
// `caselist`. What is read is not known to a contract, so those here say no more than that a count has its limit. Left,
// and stated by none: that the bytes of standard input are read in their order, that each
// record is handed on once, and that these numbers are printed.
#![tactic(auto)]

ghost use Rattle.std.specs.Prelude.{◌≡◌, true, leb};

// Standard input and standard output, by their numbers.
const STDIN_FILENO: i32 = 0;

const STDOUT_FILENO: i32 = 1;

// How many of the next `many` records of script agree, up to the first that is not whole.
fn scripts(many: u64) -> u64
    ensures { leb result many ≡ true }
{
    let mut record = [0u8; 7944];
    let mut equal: u64 = 0;
    for i in 0..many {
        if io::read_full(STDIN_FILENO, &mut record) < 7944 {
            break;
        }
        equal = replay::counted(equal, replay::script_agrees(&record));
    }
    equal
}

// How many of the next `many` records of field agree, up to the first that is not whole.
fn fields(many: u64) -> u64
    ensures { leb result many ≡ true }
{
    let mut record = [0u8; 816];
    let mut equal: u64 = 0;
    for i in 0..many {
        if io::read_full(STDIN_FILENO, &mut record) < 816 {
            break;
        }
        equal = replay::counted(equal, replay::field_agrees(&record));
    }
    equal
}

// How many of the next `many` records of pair agree, up to the first that is not whole.
fn pairs(many: u64) -> u64
    ensures { leb result many ≡ true }
{
    let mut record = [0u8; 232];
    let mut equal: u64 = 0;
    for i in 0..many {
        if io::read_full(STDIN_FILENO, &mut record) < 232 {
            break;
        }
        equal = replay::counted(equal, replay::pair_agrees(&record));
    }
    equal
}

// How many of the next `many` cases agree, files or lists of events, up to the first that is too long or not whole.
fn cases(listed: bool, many: u64) -> u64
    ensures { leb result many ≡ true }
{
    let mut size = [0u8; 4];
    let mut room = [0u8; 16384];
    let bytes: &mut [u8] = &mut room;
    let mut equal: u64 = 0;
    for i in 0..many {
        if io::read_full(STDIN_FILENO, &mut size) < 4 {
            break;
        }
        let n = octets::get(&size, 0, 4) as usize;
        if bytes.len() < n {
            break;
        }
        if io::read_full(STDIN_FILENO, &mut bytes[0..n]) < n {
            break;
        }
        let whole = caselist::case_end(&bytes[0..n], 0) == n;
        let agrees = caselist::case_agrees(listed, &bytes[0..n], 0);
        equal = replay::counted(equal, whole & agrees);
    }
    equal
}

fn main() {
    let mut head = [0u8; 40];
    io::read_full(STDIN_FILENO, &mut head);
    let many = [
        octets::get(&head, 0, 8),
        octets::get(&head, 8, 8),
        octets::get(&head, 16, 8),
        octets::get(&head, 24, 8),
        octets::get(&head, 32, 8),
    ];
    let equal = [
        scripts(many[0]),
        fields(many[1]),
        pairs(many[2]),
        cases(false, many[3]),
        cases(true, many[4]),
    ];
    for i in 0..5 {
        io::print_decimal(STDOUT_FILENO, equal[i]);
        io::write_all(STDOUT_FILENO, b" of ");
        io::print_decimal(STDOUT_FILENO, many[i]);
        io::write_all(STDOUT_FILENO, b"\n");
    }
    let left = io::read_full(STDIN_FILENO, &mut head);
    io::print_decimal(STDOUT_FILENO, left as u64);
    io::write_all(STDOUT_FILENO, b" bytes left\n");
}
