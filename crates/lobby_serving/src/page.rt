//! The files of the page, and the hosts under which they are served.
use anyhow::{Context, Result};
use bytes::Bytes;
use lobby_web::{File, Kind, Site};
use std::alloc::Global;
use std::fs::{self, DirEntry};
use std::net::SocketAddr;
use std::rt::Files;

// The bytes of a file of the page. It fails where it is no regular file: to open a pipe may last for ever.
fn bytes_of<R: Files + AllocGlobal>(rt: &R, entry: &DirEntry<R>) -> Result<Vec<u8>> {
    let name = entry.file_name();
    anyhow::ensure!(
        fs::metadata(rt, entry.path())?.is_file(),
        "{name} is no regular file"
    );
    Ok(fs::read(rt, entry.path())?)
}

// A file of a folder, where its name has the ending of one that is of the page. A request names it by that name, and
// `index.html` by `/`.
fn file_of<R: Files + AllocGlobal>(
    rt: &R,
    folder: &str,
    entry: &DirEntry<R>,
) -> Result<Option<File>> {
    let Some(kind) = Kind::of(entry.file_name().as_bytes()) else {
        return Ok(None);
    };
    let bytes = bytes_of(rt, entry).context(format_args!("reading {folder}"))?;
    let bytes = Bytes::from_vec(bytes)?;
    let name = match entry.file_name() {
        "index.html" => "",
        name => name,
    };
    let path = format!(in rt.alloc(); "/{name}")?;
    let path = path.into_bytes();
    Ok(Some(File::new(rt.alloc(), path, kind, bytes)?))
}

// Puts those files of a folder behind others that are of the page, by the endings of their names.
fn push_files<R>(files: &mut Vec<File>, rt: &R, folder: &str) -> Result<()>
where
    R: Files + AllocGlobal + Clone + Drop,
{
    let entries = fs::read_dir(rt, folder).context(format_args!("reading the folder {folder}"))?;
    for entry in entries {
        let entry = entry.context(format_args!("reading the folder {folder}"))?;
        if let Some(file) = file_of(rt, folder, &entry)? {
            files.push(file)?;
        }
    }
    Ok(())
}

// A host with its port.
fn push_host(hosts: &mut Vec<Vec<u8>>, alloc: Global, host: &str, port: u16) -> Result<()> {
    let text = format!(in alloc; "{host}:{port}")?;
    hosts.push(text.into_bytes())?;
    Ok(())
}

/// Whether a port stands behind a host: a colon that is none of an address in brackets.
pub fn has_port(name: &str) -> bool {
    name.rsplit_once(':')
        .is_some_and(|(_, port)| !port.ends_with(']'))
}

// A host by a name: as it is, and where it has no port with this one too.
fn push_name(hosts: &mut Vec<Vec<u8>>, alloc: Global, name: &str, port: u16) -> Result<()> {
    if !has_port(name) {
        push_host(hosts, alloc, name, port)?;
    }
    let name = String::from_str(alloc, name)?;
    hosts.push(name.into_bytes())?;
    Ok(())
}

// Puts the hosts that are taken behind others.
fn push_hosts(
    hosts: &mut Vec<Vec<u8>>,
    alloc: Global,
    address: SocketAddr,
    names: &[&str],
) -> Result<()> {
    let port = address.port();
    let shown = format!(in alloc; "{address}")?;
    hosts.push(shown.into_bytes())?;
    push_host(hosts, alloc, "127.0.0.1", port)?;
    push_host(hosts, alloc, "localhost", port)?;
    for name in names {
        push_name(hosts, alloc, name, port)?;
    }
    Ok(())
}

/// The site of a folder's files, which is listened for on an address. It fails where the folder has no page, or where
/// one of those files is no regular one.
pub fn site_of<R: Files + AllocGlobal + Clone + Drop>(
    rt: &R,
    folder: &str,
    address: SocketAddr,
    names: &[&str],
) -> Result<Site> {
    let mut files = Vec::new(rt.alloc());
    push_files(&mut files, rt, folder)?;
    let page = format!(in rt.alloc(); "{folder}/index.html")?;
    anyhow::ensure!(
        fs::exists(rt, page.as_str())?,
        "there is no index.html in {folder}"
    );
    let mut hosts = Vec::new(rt.alloc());
    push_hosts(&mut hosts, rt.alloc(), address, names)?;
    Ok(Site::new(hosts, files))
}
