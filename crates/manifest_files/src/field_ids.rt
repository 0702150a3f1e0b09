//! The ids of the fields of manifests and manifest lists (Iceberg specification, "Manifests" and "Manifest Lists"). Both files are
//! read and written by them.

// An entry, `manifest_entry`.

pub const STATUS: i32 = 0;

pub const SNAPSHOT_ID: i32 = 1;

pub const DATA_FILE: i32 = 2;

pub const SEQUENCE_NUMBER: i32 = 3;

pub const FILE_SEQUENCE_NUMBER: i32 = 4;

// A file, `data_file`, with its maps of statistics: their keys and values.

pub const CONTENT: i32 = 134;

pub const FILE_PATH: i32 = 100;

pub const FILE_FORMAT: i32 = 101;

pub const PARTITION: i32 = 102;

pub const RECORD_COUNT: i32 = 103;

pub const FILE_SIZE_IN_BYTES: i32 = 104;

pub const VALUE_COUNTS: i32 = 109;

pub const VALUE_COUNTS_KEY: i32 = 119;

pub const VALUE_COUNTS_VALUE: i32 = 120;

pub const NULL_VALUE_COUNTS: i32 = 110;

pub const NULL_VALUE_COUNTS_KEY: i32 = 121;

pub const NULL_VALUE_COUNTS_VALUE: i32 = 122;

pub const LOWER_BOUNDS: i32 = 125;

pub const LOWER_BOUNDS_KEY: i32 = 126;

pub const LOWER_BOUNDS_VALUE: i32 = 127;

pub const UPPER_BOUNDS: i32 = 128;

pub const UPPER_BOUNDS_KEY: i32 = 129;

pub const UPPER_BOUNDS_VALUE: i32 = 130;

pub const KEY_METADATA: i32 = 131;

pub const EQUALITY_IDS: i32 = 135;

pub const EQUALITY_IDS_ELEMENT: i32 = 136;

pub const REFERENCED_DATA_FILE: i32 = 143;

// A row of a list, `manifest_file`, and the summary of a partition field, `field_summary`.

pub const MANIFEST_PATH: i32 = 500;

pub const MANIFEST_LENGTH: i32 = 501;

pub const PARTITION_SPEC_ID: i32 = 502;

pub const MANIFEST_CONTENT: i32 = 517;

pub const MANIFEST_SEQUENCE_NUMBER: i32 = 515;

pub const MIN_SEQUENCE_NUMBER: i32 = 516;

pub const ADDED_SNAPSHOT_ID: i32 = 503;

pub const ADDED_FILES_COUNT: i32 = 504;

pub const EXISTING_FILES_COUNT: i32 = 505;

pub const DELETED_FILES_COUNT: i32 = 506;

pub const ADDED_ROWS_COUNT: i32 = 512;

pub const EXISTING_ROWS_COUNT: i32 = 513;

pub const DELETED_ROWS_COUNT: i32 = 514;

pub const PARTITIONS: i32 = 507;

pub const PARTITIONS_ELEMENT: i32 = 508;

pub const CONTAINS_NULL: i32 = 509;

pub const LOWER_BOUND: i32 = 510;

pub const UPPER_BOUND: i32 = 511;

pub const MANIFEST_KEY_METADATA: i32 = 519;
