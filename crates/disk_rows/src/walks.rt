//! The text that dwalk prints of a directory, by another walk.
use std::{fs, io};

/// How many of each kind a walk met.
#[derive(Clone, Copy, Drop)]
struct Met {
    items: u64,
    dirs: u64,
    files: u64,
    links: u64,
    bytes: u64,
}

const NONE: Met = Met {
    items: 0,
    dirs: 0,
    files: 0,
    links: 0,
    bytes: 0,
};

impl Met {
    fn add(&mut self, kind: char, size: u64) {
        self.items = self.items.saturating_add(1);
        self.bytes = self.bytes.saturating_add(size);
        match kind {
            'd' => self.dirs = self.dirs.saturating_add(1),
            'f' => self.files = self.files.saturating_add(1),
            _ => self.links = self.links.saturating_add(1),
        }
    }

    fn summary(&self, host: HostRuntime) -> io::Result<String> {
        Ok(format!(in host.alloc();
            "items {} dirs {} files {} links {} others 0 bytes {} failed 0\n",
            self.items, self.dirs, self.files, self.links, self.bytes
        )?)
    }
}

// How a path with line feeds is printed.
fn printed(host: HostRuntime, path: &str) -> io::Result<String> {
    let mut text = String::new(host.alloc());
    for c in path.chars() {
        if c == '\n' {
            text.push_str("\\x0A")?;
        } else {
            text.push(c)?;
        }
    }
    Ok(text)
}

// The letter and the size that are printed of what stands at the path.
fn shown(host: HostRuntime, path: &str) -> io::Result<(char, u64)> {
    let data = fs::symlink_metadata(&host, path)?;
    if data.is_dir() {
        Ok(('d', 0))
    } else if data.is_file() {
        Ok(('f', data.len()))
    } else {
        Ok(('l', 0))
    }
}

/// The names of the children, in byte order.
pub fn names(host: HostRuntime, path: &str) -> io::Result<Vec<String>> {
    let mut names = Vec::new(host.alloc());
    for entry in fs::read_dir(&host, path)? {
        names.push(String::from_str(host.alloc(), entry?.file_name())?)?;
    }
    names.sort()?;
    Ok(names)
}

// Puts the paths of the children behind those that are left, from the last to the first.
fn add_children(host: HostRuntime, path: &str, left: &mut Vec<String>) -> io::Result<()> {
    for name in names(host, path)?.iter().rev() {
        left.push(format!(in host.alloc(); "{path}/{name}")?)?;
    }
    Ok(())
}

// The line of what stands at the path, with the text of a link.
fn line(host: HostRuntime, path: &str, kind: char, size: u64) -> io::Result<String> {
    let shown = printed(host, path)?;
    if kind == 'l' {
        let text = printed(host, fs::read_link(&host, path)?.as_str())?;
        return Ok(format!(in host.alloc(); "{kind} {size:>12} {shown} -> {text}\n")?);
    }
    Ok(format!(in host.alloc(); "{kind} {size:>12} {shown}\n")?)
}

/// The text that dwalk prints of a directory that has at most 10,000 nodes, and no others than directories, files and links.
pub fn walked(host: HostRuntime, top: &str) -> io::Result<String> {
    let mut text = String::new(host.alloc());
    let mut met = NONE;
    let mut left = Vec::new(host.alloc());
    left.push(String::from_str(host.alloc(), top)?)?;
    for _ in 0..10_000u32 {
        let Some(path) = left.pop() else {
            break;
        };
        let (kind, size) = shown(host, path.as_str())?;
        met.add(kind, size);
        text.push_str(line(host, path.as_str(), kind, size)?.as_str())?;
        if kind == 'd' {
            add_children(host, path.as_str(), &mut left)?;
        }
    }
    text.push_str(met.summary(host)?.as_str())?;
    Ok(text)
}
