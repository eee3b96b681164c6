//! What is served: the files of the page, under the hosts that are taken.
ghost use Rattle.std.specs.Prelude.{◌≡◌, ◌++◌, ◌∷◌, [], Some, None, false, IfOk, OnOk, OnErr};
ghost use Rattle.std.specs.Option.{option_copied};
ghost use Rattle.lobby_web.specs.Pages.{tag_of, without_port, is_same_host};

use bytes::Bytes;
use http1::text::eq_ignore_case;
use sha2::{Digest, Sha256};
use std::alloc::{AllocError, Global};

/// What a file is, by which its media type goes.
#[derive(Clone, Copy)]
pub enum Kind {
    Html,
    Css,
    Script,
    Svg,
    /// Games, which pages of other hosts read too.
    Pgn,
    /// Games as objects of JSON, which pages of other hosts read too.
    Games,
    /// What a page reads of a round.
    Json,
    /// Figures, as Prometheus reads them.
    Figures,
}

impl Kind {
    ghost use Rattle.lobby_web.specs.Media.{kind_of};

    /// By the ending of a file's name: `.html`, `.css`, `.js` or `.svg`. None for any other name.
    pub fn of(name: &[u8]) -> Option<Kind>
        ensures { result ≡ kind_of name.now }
    {
        if name.ends_with(b".html") {
            Some(Kind::Html)
        } else if name.ends_with(b".css") {
            Some(Kind::Css)
        } else if name.ends_with(b".js") {
            Some(Kind::Script)
        } else if name.ends_with(b".svg") {
            Some(Kind::Svg)
        } else {
            None
        }
    }
}

/// A file of the page: the path that a request names it by, as `/page.js`, what it is, and its bytes.
#[derive(Drop)]
pub struct File {
    path: Vec<u8>,
    pub(crate) kind: Kind,
    pub(crate) bytes: Bytes,
    /// Its entity tag.
    pub(crate) tag: Vec<u8>,
}

// The entity tag by a mark: its hex digits, in quotes.
fn tag_of(alloc: Global, mark: &[u8]) -> Result<Vec<u8>, AllocError>
    ensures { IfOk result (λ tag. tag.items ≡ tag_of mark.now) }
{
    let digits = hex::encode(alloc, mark)?;
    let mut tag = Vec::new(alloc);
    tag.push(b'"')?;
    tag.extend_from_slice(digits.as_bytes())?;
    tag.push(b'"')?;
    Ok(tag)
}

impl File {
    ghost use Rattle.sha2.specs.Sha256.{sha256};
    ghost use Rattle.lobby_web.specs.Pages.{IsFile};

    /// A file with its entity tag, the SHA-256 of its bytes as 64 hex digits in quotes, by which who has these bytes
    /// already is not sent them again (RFC 9110, 8.8.3 and 13.1.2). It fails only where memory is refused.
    pub fn new(alloc: Global, path: Vec<u8>, kind: Kind, bytes: Bytes) -> Result<File, AllocError>
        ensures { IfOk result (IsFile path.items kind bytes (sha256 bytes)) }
    {
        let sum = Sha256::digest(&bytes);
        File::marked(alloc, path, kind, bytes, sum.as_slice())
    }

    /// A file with the entity tag by a mark, as its hex digits in quotes: for who has a tag by this mark these bytes
    /// are those that he has, so other bytes at this path have another mark. It is made without a look at the bytes.
    pub fn marked(
        alloc: Global,
        path: Vec<u8>,
        kind: Kind,
        bytes: Bytes,
        mark: &[u8],
    ) -> Result<File, AllocError>
        ensures { IfOk result (IsFile path.items kind bytes mark.now) }
    {
        let tag = tag_of(alloc, mark)?;
        Ok(File {
            path,
            kind,
            bytes,
            tag,
        })
    }
}

/// The hosts that are taken, and the files that are served under them.
#[derive(Drop)]
pub struct Site {
    hosts: Vec<Vec<u8>>,
    files: Vec<File>,
    /// Whether more come than are served: who asks for games is told to come later.
    pub is_full: bool,
}

// A host without this port behind it.
fn without_port<'a>(port: &[u8], host: &'a [u8]) -> &'a [u8]
    ensures { result.now ≡ without_port port.now host.now }
{
    match host.strip_suffix(port) {
        Some(host) => host,
        None => host,
    }
}

/// Whether two hosts are one by a scheme whose port this is, as `:80`: a host without a port has that one, and small
/// and capital letters are the same.
pub(crate) fn is_same_host(port: &[u8], one: &[u8], other: &[u8]) -> bool
    ensures { result ≡ is_same_host port.now one.now other.now }
{
    eq_ignore_case(without_port(port, one), without_port(port, other))
}

impl Site {
    ghost use Rattle.lobby_web.specs.Pages.{has_host, file_at, place_of, Changes, IsSameSite};

    /// A site of these files. A host is one that a request has to name, with its port, as `127.0.0.1:8080`; one without
    /// a port has port 80, and small and capital letters are the same. Of two files with one path the first is served.
    /// It is not full.
    pub fn new(hosts: Vec<Vec<u8>>, files: Vec<File>) -> Site
        ensures hosts { result.hosts ≡ hosts }
        ensures files { result.files ≡ files }
        ensures full { result.is_full ≡ false }
    {
        Site {
            hosts,
            files,
            is_full: false,
        }
    }

    /// Whether a host is taken.
    pub(crate) fn has_host(&self, host: &[u8]) -> bool
        ensures { result ≡ has_host self.now host.now }
    {
        self.hosts
            .iter()
            .any(|taken| is_same_host(b":80", taken.as_slice(), host))
    }

    /// The file of a path.
    pub(crate) fn file_at(&self, path: &[u8]) -> Option<&File>
        ensures { option_copied result ≡ file_at self.now path.now }
    {
        self.files.iter().find(|file| file.path.as_slice() == path)
    }

    // The place of the file of a path.
    fn place_of(&self, path: &[u8]) -> Option<usize>
        ensures { result ≡ place_of self.now path.now }
    {
        self.files
            .iter()
            .position(|file| file.path.as_slice() == path)
    }

    /// From now on this file is served at its path, in the place of the one that was there, if any.
    pub fn put(&mut self, file: File) -> Result<(), AllocError>
        ensures put { OnOk result (Changes file.path.items (Some file) self.old self.new) }
        ensures err { OnErr result (IsSameSite self.old self.new) }
        ensures full { self.new.is_full ≡ self.old.is_full }
    {
        match self.place_of(file.path.as_slice()) {
            Some(place) => {
                self.files[place] = file;
                Ok(())
            }
            None => Ok(self.files.push(file)?),
        }
    }

    /// From now on nothing is served at this path.
    pub fn take_off(&mut self, path: &[u8])
        ensures off { Changes path.now None self.old self.new }
        ensures full { self.new.is_full ≡ self.old.is_full }
    {
        self.files.retain(|file| file.path.as_slice() != path);
    }
}
