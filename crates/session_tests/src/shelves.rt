//! Files, words and hosts that the tests use.
use dnr_base::NoMemory;
use dnr_io::{MemoryFile, MemoryShelf};
use std::alloc::Global;

// Rules, a list, a suffix list, an extension, one with a path that leaves its folder, one without rules, and scripts.
const FILES: &[(&str, &str)] = &[
    (
        "r.json",
        r#"[{"id":1,"condition":{"regexFilter":"x"},"action":{"type":"block"}}]"#,
    ),
    (
        "f.json",
        r#"[{"id":1,"condition":{"urlFilter":"||a.org^"},"action":{"type":"redirect","redirect":{"url":"http://x.org/"}}},{"id":2,"condition":{"regexFilter":"x"},"action":{"type":"block"}}]"#,
    ),
    (
        "f.jsonl",
        "{\"url\":\"http://a.org/\",\"type\":\"script\"}\n{\"url\":\"http://a.org/\",\"type\":\"script\"}\n",
    ),
    ("l.txt", "a.com##.ad\n||b.com^\n"),
    ("psl.dat", "uk\nco.uk\n"),
    (
        "shop/manifest.json",
        r#"{"declarative_net_request":{"rule_resources":[{"id":"s","enabled":false,"path":"s.json"}]}}"#,
    ),
    (
        "shop/s.json",
        r#"[{"id":5,"condition":{},"action":{"type":"block"}}]"#,
    ),
    (
        "out/manifest.json",
        r#"{"declarative_net_request":{"rule_resources":[{"id":"a","enabled":true,"path":"a.json"},{"id":"b","enabled":true,"path":"../shop/s.json"}]}}"#,
    ),
    (
        "q.jsonl",
        "{\"url\":\"http://x.org/\",\"type\":\"script\"}\n{\"url\":\"http://x.org/\",\"type\":\"script\"}\n{\"url\":\"http://x.org/\",\"type\":\"script\"}\n",
    ),
    ("a/manifest.json", "{}"),
    (
        "block.jsonl",
        "{\"cmd\":\"dynamic\",\"extension\":\"a\",\"addRules\":[{\"id\":1,\"condition\":{\"urlFilter\":\"||a.com^\"},\"action\":{\"type\":\"block\"}}]}\n{\"cmd\":\"sync\"}\n{\"url\":\"http://a.com/\",\"type\":\"script\"}\n",
    ),
    (
        "pattern.jsonl",
        "{\"cmd\":\"dynamic\",\"extension\":\"a\",\"addRules\":[{\"id\":1,\"condition\":{\"regexFilter\":\"x\"},\"action\":{\"type\":\"block\"}}]}\n{\"cmd\":\"dynamic\",\"extension\":\"a\"}\n",
    ),
];

/// A shelf whose call of this number fails, from 1.
pub fn shelf(alloc: Global, failing: u64) -> Result<MemoryShelf, NoMemory> {
    shelf_of(alloc, FILES, failing)
}

/// The same over files of these names and texts.
pub fn shelf_of(
    alloc: Global,
    all: &[(&str, &str)],
    failing: u64,
) -> Result<MemoryShelf, NoMemory> {
    let mut files = Vec::new(alloc);
    for (name, text) in all {
        let name = String::from_str(alloc, name)?;
        files.push(MemoryFile::new(name, Vec::from_slice(alloc, text.as_bytes())?))?;
    }
    Ok(MemoryShelf::new(files, 4096, vec![in alloc; failing]?))
}

/// The words of a command.
pub fn words(alloc: Global, command: &str) -> Result<Vec<String>, NoMemory> {
    let mut words = Vec::new(alloc);
    for word in command.split(' ') {
        words.push(String::from_str(alloc, word)?)?;
    }
    Ok(words)
}
