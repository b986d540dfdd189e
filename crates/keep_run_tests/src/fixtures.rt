//! What the tests are made of: scripts, and a run over files in memory.
use dnr_io::{MemoryFile, MemoryShelf, MemorySink, Status};
use keep_disk::{MemoryDisk, NoMemory};
use keep_run::run_keep;
use regex_host::{PackHost, RegexHost};
use std::alloc::Global;

/// A line that adds to the extension `a` a rule which blocks what `a.com` and its subdomains give.
pub const ADDS: &str =
    "{\"cmd\":\"dynamic\",\"extension\":\"a\",\"addRules\":[{\"id\":1,\"priority\":1,\"condition\":{\"urlFilter\":\"||a.com^\"},\"action\":{\"type\":\"block\"}}]}\n";

/// The same line and two more, which add rules too.
pub const SCRIPT: &str =
    "{\"cmd\":\"dynamic\",\"extension\":\"a\",\"addRules\":[{\"id\":1,\"priority\":1,\"condition\":{\"urlFilter\":\"||a.com^\"},\"action\":{\"type\":\"block\"}}]}\n{\"cmd\":\"dynamic\",\"extension\":\"a\",\"removeRuleIds\":[7],\"addRules\":[{\"id\":2,\"condition\":{\"requestDomains\":[\"b.org\",\"a.org\"]},\"action\":{\"type\":\"allow\"}}]}\n{\"cmd\":\"dynamic\",\"extension\":\"a\",\"addRules\":[{\"id\":3,\"condition\":{\"regexFilter\":\"x\"},\"action\":{\"type\":\"block\"}}]}\n";

/// What a file keeps of the three lines.
pub const TEXTS: [&str; 3] = [
    r#"{"addRules":[{"action":{"type":"block"},"condition":{"urlFilter":"||a.com^"},"id":1,"priority":1}],"cmd":"dynamic","extension":"a","removeRuleIds":[]}"#,
    r#"{"addRules":[{"action":{"type":"allow"},"condition":{"requestDomains":["a.org","b.org"]},"id":2,"priority":1}],"cmd":"dynamic","extension":"a","removeRuleIds":[7]}"#,
    r#"{"addRules":[{"action":{"type":"block"},"condition":{"regexFilter":"x"},"id":3,"priority":1}],"cmd":"dynamic","extension":"a","removeRuleIds":[]}"#,
];

/// What is written first where a file keeps none of the lines, the first, the first two, and all of them.
pub const KEPT: [&str; 4] = [
    "{\"kept\":0}\n",
    "{\"kept\":1}\n",
    "{\"kept\":2}\n",
    "{\"kept\":3}\n",
];

/// What is written where the three lines are answered over an empty file: how many it keeps, and each answer.
pub const TOLD: [&str; 4] = [
    "{\"kept\":0}\n",
    "{\"line\":1,\"accepted\":1}\n",
    "{\"line\":2,\"accepted\":2}\n",
    "{\"line\":3,\"accepted\":3}\n",
];

/// How a run ended, and what it wrote.
#[derive(Drop)]
pub struct Ran {
    pub status: Status,
    pub written: Vec<u8>,
}

/// The file of these payloads, with a closed gate byte behind its last record.
pub fn file_of(alloc: Global, payloads: &[&str]) -> Result<Vec<u8>, NoMemory> {
    let mut file = Vec::new(alloc);
    for payload in payloads {
        file.push(1)?;
        let size = u32::try_from(payload.len()).unwrap_or(0);
        file.extend_from_slice(&size.to_be_bytes())?;
        file.extend_from_slice(payload.as_bytes())?;
    }
    file.push(0)?;
    Ok(file)
}

/// A disk that holds these bytes, with no call that fails.
pub fn disk_of(alloc: Global, bytes: &[u8]) -> Result<MemoryDisk, NoMemory> {
    MemoryDisk::new(alloc, bytes, Vec::new(alloc))
}

/// Runs `keep k a s` over a disk and a script.
pub fn run(alloc: Global, disk: &mut MemoryDisk, script: &str) -> Result<Ran, NoMemory> {
    let mut host = PackHost::new(alloc)?;
    run_by(alloc, disk, script, &mut host)
}

/// The same by this host.
pub fn run_by<H: RegexHost>(
    alloc: Global,
    disk: &mut MemoryDisk,
    script: &str,
    host: &mut H,
) -> Result<Ran, NoMemory> {
    let words = words(alloc)?;
    let mut files = Vec::new(alloc);
    files.push(MemoryFile::new(
        String::from_str(alloc, "s")?,
        script.as_bytes().to_vec(alloc)?,
    ))?;
    let mut shelf = MemoryShelf::new(files, 50, Vec::new(alloc));
    let mut out = MemorySink::new(alloc, 9, Vec::new(alloc));
    let status = run_keep(alloc, &words, &mut shelf, &mut out, host, disk);
    Ok(Ran {
        status,
        written: out.bytes().to_vec(alloc)?,
    })
}

fn words(alloc: Global) -> Result<Vec<String>, NoMemory> {
    let mut words = Vec::new(alloc);
    for word in ["keep", "k", "a", "s"] {
        words.push(String::from_str(alloc, word)?)?;
    }
    Ok(words)
}

/// These texts one behind another.
pub fn joined(alloc: Global, texts: &[&str]) -> Result<Vec<u8>, NoMemory> {
    let mut all = Vec::new(alloc);
    for text in texts {
        all.extend_from_slice(text.as_bytes())?;
    }
    Ok(all)
}
