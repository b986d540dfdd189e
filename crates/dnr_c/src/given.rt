// What C hands over.
ghost use Rattle.std.specs.Prelude.{◌≡◌, map, IfOk, string_bytes};
ghost use Rattle.std.specs.Str.{is_utf8};
ghost use Rattle.dnr_c.specs.Given as from_c;

use dnr_base::NoMemory;
use dnr_io::MemoryFile;
use std::alloc::Global;
use std::str;

/// A text, which is UTF-8.
#[repr(C)]
#[derive(Clone, Copy)]
pub struct GivenText<'a> {
    pub bytes: &'a [u8],
}

/// A file in memory: its name, which is UTF-8, and all its bytes.
#[repr(C)]
#[derive(Clone, Copy)]
pub struct GivenFile<'a> {
    pub name: &'a [u8],
    pub bytes: &'a [u8],
}

// Whether the words and the names are texts.
pub(crate) fn are_texts(words: &[GivenText<'_>], files: &[GivenFile<'_>]) -> bool
    ensures { result ≡ from_c.are_texts words.now files.now }
{
    are_words(words) && are_names(files)
}

fn are_words(words: &[GivenText<'_>]) -> bool
    ensures { result ≡ from_c.are_words words.now }
{
    words.iter().all(|word| is_text(word.bytes))
}

fn are_names(files: &[GivenFile<'_>]) -> bool
    ensures { result ≡ from_c.are_names files.now }
{
    files.iter().all(|file| is_text(file.name))
}

#[tactic(auto, using(crate::proofs::Texts::text_is, crate::proofs::Texts::no_text_is))]
fn is_text(bytes: &[u8]) -> bool
    ensures { result ≡ is_utf8 bytes.now }
{
    match str::from_utf8(bytes) {
        Ok(_) => true,
        Err(_) => false,
    }
}

// A copy of the words. Where one is no text there is none.
pub(crate) fn words_of(alloc: Global, words: &[GivenText<'_>]) -> Result<Vec<String>, NoMemory>
    ensures { IfOk result (λ all. map string_bytes all.items ≡ from_c.words_of words.now) }
{
    let mut all = Vec::with_capacity(alloc, words.len())?;
    for word in words {
        all.push(text_of(alloc, word.bytes)?)?;
    }
    Ok(all)
}

// The same of files.
pub(crate) fn files_of(alloc: Global, files: &[GivenFile<'_>]) -> Result<Vec<MemoryFile>, NoMemory>
    ensures { IfOk result (λ all. all.items ≡ from_c.files_of files.now) }
{
    let mut all = Vec::with_capacity(alloc, files.len())?;
    for file in files {
        all.push(file_of(alloc, file)?)?;
    }
    Ok(all)
}

fn file_of(alloc: Global, file: &GivenFile<'_>) -> Result<MemoryFile, NoMemory>
    ensures { IfOk result (λ copy. copy ≡ from_c.file_of file.now) }
{
    let name = text_of(alloc, file.name)?;
    let mut bytes = Vec::new(alloc);
    bytes.extend_from_slice(file.bytes)?;
    Ok(MemoryFile::new(name, bytes))
}

fn text_of(alloc: Global, bytes: &[u8]) -> Result<String, NoMemory>
    ensures { IfOk result (λ text. string_bytes text ≡ bytes.now) }
{
    let Ok(text) = str::from_utf8(bytes) else {
        return Err(NoMemory);
    };
    Ok(String::from_str(alloc, text)?)
}
