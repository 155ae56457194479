//! The operations that a request can name.

use crate::version::Version;

/// An operation of the protocol, by its code.
#[derive(Clone, Copy, Debug, PartialEq, Eq)]
pub enum Operation {
    CloseResource = 0,
    Get = 1000,
    Put = 1001,
    PutIfAbsent = 1002,
    GetAll = 1003,
    PutAll = 1004,
    GetAndPut = 1005,
    GetAndReplace = 1006,
    GetAndRemove = 1007,
    GetAndPutIfAbsent = 1008,
    Replace = 1009,
    ReplaceIfEquals = 1010,
    ContainsKey = 1011,
    ContainsKeys = 1012,
    Clear = 1013,
    ClearKey = 1014,
    ClearKeys = 1015,
    RemoveKey = 1016,
    RemoveIfEquals = 1017,
    RemoveKeys = 1018,
    RemoveAll = 1019,
    GetSize = 1020,
    CacheNames = 1050,
    Create = 1051,
    GetOrCreate = 1052,
    Destroy = 1056,
    PartitionMaps = 1101,
    Scan = 2000,
    NextPage = 2001,
    GetTypeName = 3000,
    RegisterTypeName = 3001,
    GetType = 3002,
    PutType = 3003,
}

impl Operation {
    ghost use Rattle.std.specs.Prelude.{◌≡◌};
    ghost use Rattle.ig_wire.specs.Operations.{operation_code, operation_at, first_version, operation_name};

    /// The operation with this code, or `None` where none has it.
    pub fn of(code: i16) -> Option<Operation>
        ensures { result ≡ operation_at code }
    {
        let Ok(code) = u16::try_from(code) else {
            return None;
        };
        Some(match code {
            0 => Operation::CloseResource,
            1000 => Operation::Get,
            1001 => Operation::Put,
            1002 => Operation::PutIfAbsent,
            1003 => Operation::GetAll,
            1004 => Operation::PutAll,
            1005 => Operation::GetAndPut,
            1006 => Operation::GetAndReplace,
            1007 => Operation::GetAndRemove,
            1008 => Operation::GetAndPutIfAbsent,
            1009 => Operation::Replace,
            1010 => Operation::ReplaceIfEquals,
            1011 => Operation::ContainsKey,
            1012 => Operation::ContainsKeys,
            1013 => Operation::Clear,
            1014 => Operation::ClearKey,
            1015 => Operation::ClearKeys,
            1016 => Operation::RemoveKey,
            1017 => Operation::RemoveIfEquals,
            1018 => Operation::RemoveKeys,
            1019 => Operation::RemoveAll,
            1020 => Operation::GetSize,
            1050 => Operation::CacheNames,
            1051 => Operation::Create,
            1052 => Operation::GetOrCreate,
            1056 => Operation::Destroy,
            1101 => Operation::PartitionMaps,
            2000 => Operation::Scan,
            2001 => Operation::NextPage,
            3000 => Operation::GetTypeName,
            3001 => Operation::RegisterTypeName,
            3002 => Operation::GetType,
            3003 => Operation::PutType,
            _ => return None,
        })
    }

    /// Its code.
    pub fn code(self) -> i16
        ensures { result ≡ operation_code self }
    {
        self as i16
    }

    /// The first version that has it.
    pub fn since(self) -> Version
        ensures { result ≡ first_version self }
    {
        match self {
            Operation::PartitionMaps => Version::V1_4_0,
            _ => Version::V1_0_0,
        }
    }

    /// Its name.
    pub fn name(self) -> &'static str
        ensures { result.now ≡ operation_name self }
    {
        match self {
            Operation::CloseResource => "close resource",
            Operation::Get => "get",
            Operation::Put => "put",
            Operation::PutIfAbsent => "put if absent",
            Operation::GetAll => "get all",
            Operation::PutAll => "put all",
            Operation::GetAndPut => "get and put",
            Operation::GetAndReplace => "get and replace",
            Operation::GetAndRemove => "get and remove",
            Operation::GetAndPutIfAbsent => "get and put if absent",
            Operation::Replace => "replace",
            Operation::ReplaceIfEquals => "replace if equals",
            Operation::ContainsKey => "contains key",
            Operation::ContainsKeys => "contains keys",
            Operation::Clear => "clear",
            Operation::ClearKey => "clear key",
            Operation::ClearKeys => "clear keys",
            Operation::RemoveKey => "remove key",
            Operation::RemoveIfEquals => "remove if equals",
            Operation::RemoveKeys => "remove keys",
            Operation::RemoveAll => "remove all",
            Operation::GetSize => "get size",
            Operation::CacheNames => "cache names",
            Operation::Create => "create",
            Operation::GetOrCreate => "get or create",
            Operation::Destroy => "destroy",
            Operation::PartitionMaps => "partition maps",
            Operation::Scan => "scan",
            Operation::NextPage => "next page",
            Operation::GetTypeName => "get type name",
            Operation::RegisterTypeName => "register type name",
            Operation::GetType => "get type",
            Operation::PutType => "put type",
        }
    }
}
