// The words that ask for rules to be kept.
ghost use Rattle.std.specs.Prelude.{◌≡◌, map, option_map, string_bytes};
ghost use Rattle.keep_run_spec.specs.Words as spec;
ghost use Rattle.keep_run.specs.Seen.{keeping_seen};

use dnr_words::{is_extension_name, is_file_name};

// The file that keeps the rules, the extension that they are of, and the script.
#[derive(Clone, Copy, Debug)]
pub(crate) struct Keeping<'a> {
    pub file: &'a str,
    pub extension: &'a str,
    pub script: &'a str,
}

// What the words after the program's name ask to keep, if they do. It takes no memory.
pub(crate) fn keeping_in(words: &[String]) -> Option<Keeping<'_>>
    ensures { option_map keeping_seen result ≡ spec.keeping_of (map string_bytes words.now) }
{
    let [command, file, extension, script] = words else {
        return None;
    };
    if command.as_str() != "keep" {
        return None;
    }
    keeping_by(file.as_str(), extension.as_str(), script.as_str())
}

fn keeping_by<'a>(file: &'a str, extension: &'a str, script: &'a str) -> Option<Keeping<'a>>
    ensures { option_map keeping_seen result ≡ spec.keeping_by file.now extension.now script.now }
{
    if is_file_name(file) && is_extension_name(extension) && is_file_name(script) {
        Some(Keeping {
            file,
            extension,
            script,
        })
    } else {
        None
    }
}
