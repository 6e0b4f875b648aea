//! The job that the command line's words mean.
ghost use Rattle.std.specs.Prelude.{◌≡◌, map, IsTrue};
ghost use Rattle.std.specs.String.{string_bytes};
ghost use Rattle.pm_job.specs.CommandLine.{is_operand as spec_is_operand, job_of as spec_job_of, target_now};
ghost use Rattle.std.specs.Option.{option_map};

/// The design file to simulate, and the class of its top component.
#[derive(Clone, Copy)]
pub struct Target<'a> {
    /// The name of the file.
    pub file: &'a [u8],
    /// The name of the class.
    pub class: &'a [u8],
}

/// The job that the words mean. `sim FILE TOP` is the only one.
pub fn job_of(words: &Vec<String>) -> Option<Target<'_>>
    ensures { option_map target_now result ≡ spec_job_of (map string_bytes words.now.items) }
{
    if words.len() != 3 {
        return None;
    }
    let action = words[0].as_bytes();
    let file = words[1].as_bytes();
    let class = words[2].as_bytes();
    if action == b"sim".as_slice() && is_operand(file) && is_operand(class) {
        Some(Target { file, class })
    } else {
        None
    }
}

// Whether a word isn't empty and doesn't begin with `-`.
fn is_operand(word: &[u8]) -> bool
    ensures { result ≡ spec_is_operand word.now }
{
    match word.first() {
        Some(first) => *first != b'-',
        None => false,
    }
}
