//! A package record.

use mp_codec::Text;
use std::marker::Model;

/// What a channel says of one package file. Contracts see its fields.
#[derive(Debug, Drop)]
pub struct PackageRecord {
    pub(crate) name: Text,
    pub(crate) version: Text,
    pub(crate) build: Text,
    pub(crate) build_number: u64,
    pub(crate) depends: Vec<Text>,
    pub(crate) constrains: Vec<Text>,
    pub(crate) subdir: Option<Text>,
    pub(crate) md5: Option<[u8; 16]>,
    pub(crate) sha256: Option<[u8; 32]>,
    pub(crate) size: Option<u64>,
    pub(crate) timestamp: Option<u64>,
    pub(crate) license: Option<Text>,
    pub(crate) noarch: Option<Text>,
}

impl Model for PackageRecord {
    ghost use Rattle.conda_record.specs.Record.{Fields};

    ghost Value = { Fields };

    ghost view = { λ r. record {
      name = r.name;
      version = r.version;
      build = r.build;
      build_number = r.build_number;
      depends = r.depends.items;
      constrains = r.constrains.items;
      subdir = r.subdir;
      md5 = r.md5;
      sha256 = r.sha256;
      size = r.size;
      timestamp = r.timestamp;
      license = r.license;
      noarch = r.noarch;
    } };
}
