ghost use Rattle.std.specs.Prelude.{◌≡◌, ◌≢◌, [], All, IfSome, IfOk};
ghost use Rattle.ig_caches.specs.IsRunnable.{IsItem, IsRow, IsRunnable};

use ig_base::{Items, NoMemory, NoRoom, Octets, Text, text_hash};
use ig_caches::*;
use ig_types::{Clash, FieldMeta, TypeMeta};
use ig_value::Value;
use std::alloc::{AllocError, Global};
use std::test::Fail;

fn text(alloc: Global, text: &str) -> Result<Text, AllocError>
    ensures { IfOk result (λ made. made ≡ text.now) }
{
    Ok(Text::new(String::from_str(alloc, text)?))
}

fn number(word: Option<&str>) -> i32 {
    word.and_then(|word| word.parse::<i32>().ok()).unwrap_or(0)
}

/// The numbers among the words of a row, in order.
fn numbers(alloc: Global, row: &str) -> Result<Vec<i32>, AllocError> {
    let mut numbers = Vec::new(alloc);
    for word in row.split(' ') {
        if let Ok(number) = word.parse::<i32>() {
            numbers.push(number)?;
        }
    }
    Ok(numbers)
}

/// The value of a number.
fn int(number: i32) -> Value
    ensures { IsItem result }
{
    Value::Int(number)
}

/// The value of the number at the index, or of 0.
fn item(numbers: &[i32], at: usize) -> Value
    ensures { IsItem result }
{
    int(numbers.get(at).copied().unwrap_or(0))
}

fn items(alloc: Global, numbers: &[i32]) -> Result<Items<Value>, AllocError>
    ensures { IfOk result (λ items. All IsItem items) }
{
    let mut items = Vec::new(alloc);
    for number in numbers {
        items.push(int(*number))?;
    }
    Ok(Items::new(items))
}

/// The row of the two numbers.
fn pair(two: &[i32]) -> Pair
    ensures { IsRow result }
{
    Pair {
        key: item(two, 0),
        value: item(two, 1),
    }
}

fn pairs(alloc: Global, numbers: &[i32]) -> Result<Items<Pair>, AllocError>
    ensures { IfOk result (λ pairs. All IsRow pairs) }
{
    let mut pairs = Vec::new(alloc);
    for two in numbers.chunks(2) {
        pairs.push(pair(two))?;
    }
    Ok(Items::new(pairs))
}

/// The call on one key that a row says: its name, then the key, a wanted value, a value.
fn key_call(cache: i32, name: &str, n: &[i32]) -> Option<Call>
    ensures { IfSome result IsRunnable }
{
    match name {
        "get" => Some(Call::Get {
            cache,
            key: item(n, 0),
        }),
        "get-and-remove" => Some(Call::GetAndRemove {
            cache,
            key: item(n, 0),
        }),
        "contains" => Some(Call::ContainsKey {
            cache,
            key: item(n, 0),
        }),
        "clear-key" => Some(Call::ClearKey {
            cache,
            key: item(n, 0),
        }),
        "remove" => Some(Call::RemoveKey {
            cache,
            key: item(n, 0),
        }),
        "remove-if" => Some(Call::RemoveIfEquals {
            cache,
            key: item(n, 0),
            wanted: item(n, 1),
        }),
        "replace-if" => Some(Call::ReplaceIfEquals {
            cache,
            key: item(n, 0),
            wanted: item(n, 1),
            value: item(n, 2),
        }),
        _ => put_call(cache, name, n),
    }
}

/// The same of the calls with a key and a value.
fn put_call(cache: i32, name: &str, n: &[i32]) -> Option<Call>
    ensures { IfSome result IsRunnable }
{
    match name {
        "put" => Some(Call::Put {
            cache,
            key: item(n, 0),
            value: item(n, 1),
        }),
        "put-if-absent" => Some(Call::PutIfAbsent {
            cache,
            key: item(n, 0),
            value: item(n, 1),
        }),
        "get-and-put" => Some(Call::GetAndPut {
            cache,
            key: item(n, 0),
            value: item(n, 1),
        }),
        "get-and-replace" => Some(Call::GetAndReplace {
            cache,
            key: item(n, 0),
            value: item(n, 1),
        }),
        "get-and-put-if-absent" => Some(Call::GetAndPutIfAbsent {
            cache,
            key: item(n, 0),
            value: item(n, 1),
        }),
        "replace" => Some(Call::Replace {
            cache,
            key: item(n, 0),
            value: item(n, 1),
        }),
        _ => None,
    }
}

/// The call on several keys, or on all rows, that a row says: its name, then keys, or keys and values.
fn rows_call(alloc: Global, cache: i32, name: &str, n: &[i32]) -> Result<Option<Call>, AllocError>
    ensures { IfOk result (λ call. IfSome call IsRunnable) }
{
    Ok(Some(match name {
        "get-all" => Call::GetAll {
            cache,
            keys: items(alloc, n)?,
        },
        "contains-all" => Call::ContainsKeys {
            cache,
            keys: items(alloc, n)?,
        },
        "clear-keys" => Call::ClearKeys {
            cache,
            keys: items(alloc, n)?,
        },
        "remove-keys" => Call::RemoveKeys {
            cache,
            keys: items(alloc, n)?,
        },
        "put-all" => Call::PutAll {
            cache,
            pairs: pairs(alloc, n)?,
        },
        "clear" => Call::Clear { cache },
        "remove-all" => Call::RemoveAll { cache },
        "scan" => Call::Scan { cache },
        "size" => Call::Size {
            cache,
            modes: modes(alloc, n)?,
        },
        "destroy" => Call::Destroy { cache },
        _ => return Ok(None),
    }))
}

/// Every call on the keys of `main`, in which 1 has the value 2: what it answers, and what it leaves.
static ROWS_OF_MAIN: [(&str, &str, &str); 46] = [
    ("get main 1", "found 2", "rows 1 2"),
    ("get main 3", "found null", "rows 1 2"),
    ("contains main 1", "yes", "rows 1 2"),
    ("contains main 3", "no", "rows 1 2"),
    ("put main 1 5", "done", "rows 1 5"),
    ("put main 3 5", "done", "rows 1 2 3 5"),
    ("put-if-absent main 1 5", "no", "rows 1 2"),
    ("put-if-absent main 3 5", "yes", "rows 1 2 3 5"),
    ("get-and-put main 1 5", "found 2", "rows 1 5"),
    ("get-and-put main 3 5", "found null", "rows 1 2 3 5"),
    ("get-and-replace main 1 5", "found 2", "rows 1 5"),
    ("get-and-replace main 3 5", "found null", "rows 1 2"),
    ("get-and-put-if-absent main 1 5", "found 2", "rows 1 2"),
    (
        "get-and-put-if-absent main 3 5",
        "found null",
        "rows 1 2 3 5",
    ),
    ("get-and-remove main 1", "found 2", "rows"),
    ("get-and-remove main 3", "found null", "rows 1 2"),
    ("replace main 1 5", "yes", "rows 1 5"),
    ("replace main 3 5", "no", "rows 1 2"),
    ("replace-if main 1 2 5", "yes", "rows 1 5"),
    ("replace-if main 1 3 5", "no", "rows 1 2"),
    ("replace-if main 3 2 5", "no", "rows 1 2"),
    ("clear-key main 1", "done", "rows"),
    ("clear-key main 3", "done", "rows 1 2"),
    ("remove main 1", "yes", "rows"),
    ("remove main 3", "no", "rows 1 2"),
    ("remove-if main 1 2", "yes", "rows"),
    ("remove-if main 1 3", "no", "rows 1 2"),
    ("remove-if main 3 2", "no", "rows 1 2"),
    ("get-all main 3 1 3 1", "rows 1 2", "rows 1 2"),
    ("get-all main", "rows", "rows 1 2"),
    ("contains-all main 1 1", "yes", "rows 1 2"),
    ("contains-all main 1 3", "no", "rows 1 2"),
    ("contains-all main", "yes", "rows 1 2"),
    ("put-all main 1 5 3 6 1 7", "done", "rows 1 7 3 6"),
    ("put-all main", "done", "rows 1 2"),
    ("clear-keys main 3 1", "done", "rows"),
    ("clear-keys main 3", "done", "rows 1 2"),
    ("remove-keys main 1 1", "done", "rows"),
    ("remove-keys main 3", "done", "rows 1 2"),
    ("clear main", "done", "rows"),
    ("remove-all main", "done", "rows"),
    ("scan main", "rows 1 2", "rows 1 2"),
    ("size main", "count 1", "rows 1 2"),
    ("size main 1", "count 0", "rows 1 2"),
    ("size main 1 0", "count 1", "rows 1 2"),
    ("size main 2", "count 1", "rows 1 2"),
];

fn modes(alloc: Global, numbers: &[i32]) -> Result<Octets, AllocError> {
    let mut modes = Vec::new(alloc);
    for number in numbers {
        modes.push(u8::try_from(*number).unwrap_or(0))?;
    }
    Ok(Octets::new(modes))
}

/// A name that isn't empty.
fn name_of(alloc: Global, word: &str) -> Result<Option<Text>, AllocError>
    ensures { IfOk result (λ name. IfSome name (λ n. n ≢ [])) }
{
    if word.is_empty() {
        return Ok(None);
    }
    Ok(Some(text(alloc, word)?))
}

/// The creation of a cache, unless the name is empty.
fn create(alloc: Global, word: &str) -> Result<Option<Call>, AllocError>
    ensures { IfOk result (λ call. IfSome call IsRunnable) }
{
    let Some(name) = name_of(alloc, word)? else {
        return Ok(None);
    };
    Ok(Some(Call::Create { name }))
}

/// The same, if there is no cache of this name.
fn get_or_create(alloc: Global, word: &str) -> Result<Option<Call>, AllocError>
    ensures { IfOk result (λ call. IfSome call IsRunnable) }
{
    let Some(name) = name_of(alloc, word)? else {
        return Ok(None);
    };
    Ok(Some(Call::GetOrCreate { name }))
}

/// The description of the type `P` with one field, and with this field as its affinity key if the last
/// number isn't 0: type, kind, field, whether a key.
fn put_type(alloc: Global, field: &str, n: &[i32]) -> Result<Option<Call>, AllocError>
    ensures { IfOk result (λ call. IfSome call IsRunnable) }
{
    let mut fields = Vec::new(alloc);
    fields.push(FieldMeta {
        name: text(alloc, field)?,
        kind: n.get(1).copied().unwrap_or(0),
        id: n.get(2).copied().unwrap_or(0),
    })?;
    let affinity = if n.len() > 3 {
        Some(text(alloc, field)?)
    } else {
        None
    };
    let meta = TypeMeta {
        type_id: n.first().copied().unwrap_or(0),
        name: text(alloc, "P")?,
        affinity,
        is_enum: false,
        fields: Items::new(fields),
        literals: Items::new(Vec::new(alloc)),
        schemas: Items::new(Vec::new(alloc)),
    };
    if !meta.is_in_order() {
        return Ok(None);
    }
    Ok(Some(Call::PutType { meta }))
}

/// The call on all caches that a row says: its name, a word, then numbers.
fn other_call(alloc: Global, name: &str, word: &str, n: &[i32]) -> Result<Option<Call>, AllocError>
    ensures { IfOk result (λ call. IfSome call IsRunnable) }
{
    let type_id = n.first().copied().unwrap_or(0);
    match name {
        "names" => Ok(Some(Call::Names)),
        "create" => create(alloc, word),
        "get-or-create" => get_or_create(alloc, word),
        "put-type" => put_type(alloc, word, n),
        "type" => Ok(Some(Call::TypeOf { type_id })),
        "name" => Ok(Some(Call::TypeName {
            platform: 0,
            type_id,
        })),
        "set-name" => Ok(Some(Call::SetTypeName {
            platform: 0,
            type_id,
            name: text(alloc, word)?,
        })),
        "affinity" => {
            let mut caches = Vec::new(alloc);
            caches.push(text_hash(word))?;
            Ok(Some(Call::Affinity {
                caches: Items::new(caches),
            }))
        }
        _ => Ok(None),
    }
}

/// The call that a row says: its name, then a cache or a word, then numbers.
fn call_of(alloc: Global, row: &str) -> Result<Option<Call>, AllocError>
    ensures { IfOk result (λ call. IfSome call IsRunnable) }
{
    let mut words = row.split(' ');
    let name = words.next().unwrap_or("");
    let word = words.next().unwrap_or("");
    let n = numbers(alloc, row)?;
    if let Some(call) = key_call(text_hash(word), name, n.as_slice()) {
        return Ok(Some(call));
    }
    if let Some(call) = rows_call(alloc, text_hash(word), name, n.as_slice())? {
        return Ok(Some(call));
    }
    other_call(alloc, name, word, n.as_slice())
}

/// A number, or `null`.
fn shown_value(alloc: Global, value: &Value) -> Result<String, AllocError> {
    match value {
        Value::Int(number) => format!(in alloc; "{number}"),
        _ => String::from_str(alloc, "null"),
    }
}

fn shown_rows(alloc: Global, rows: &[Pair]) -> Result<String, AllocError> {
    let mut shown = String::from_str(alloc, "rows")?;
    for row in rows {
        shown.push(' ')?;
        shown.push_str(shown_value(alloc, &row.key)?.as_str())?;
        shown.push(' ')?;
        shown.push_str(shown_value(alloc, &row.value)?.as_str())?;
    }
    Ok(shown)
}

fn shown_names(alloc: Global, names: &[Text]) -> Result<String, AllocError> {
    let mut shown = String::from_str(alloc, "names")?;
    for name in names {
        shown.push(' ')?;
        shown.push_str(name.as_str())?;
    }
    Ok(shown)
}

/// What an outcome says, in a few words.
fn shown(alloc: Global, outcome: &Outcome) -> Result<String, AllocError> {
    match outcome {
        Outcome::Done => String::from_str(alloc, "done"),
        Outcome::Found(value) => {
            let value = shown_value(alloc, value)?;
            format!(in alloc; "found {value}")
        }
        Outcome::Yes(true) => String::from_str(alloc, "yes"),
        Outcome::Yes(false) => String::from_str(alloc, "no"),
        Outcome::Pairs(rows) => shown_rows(alloc, rows.as_slice()),
        Outcome::Count(number) => format!(in alloc; "count {number}"),
        Outcome::Names(names) => shown_names(alloc, names.as_slice()),
        Outcome::Name(name) => {
            let name = name.as_str();
            format!(in alloc; "name {name}")
        }
        Outcome::Meta(None) => String::from_str(alloc, "no type"),
        Outcome::Meta(Some(meta)) => shown_meta(alloc, meta),
        Outcome::Keys(keys) => shown_keys(alloc, keys.as_slice()),
        Outcome::Refused(why) => shown_why(alloc, why),
    }
}

/// The type, its name and its affinity key, and the name, kind and identifier of each field.
fn shown_meta(alloc: Global, meta: &TypeMeta) -> Result<String, AllocError> {
    let type_id = meta.type_id;
    let name = meta.name.as_str();
    let affinity = match &meta.affinity {
        Some(affinity) => affinity.as_str(),
        None => "-",
    };
    let mut shown = format!(in alloc; "type {type_id} {name} {affinity}")?;
    for field in meta.fields.as_slice() {
        shown.push_str(shown_field(alloc, field)?.as_str())?;
    }
    Ok(shown)
}

fn shown_field(alloc: Global, field: &FieldMeta) -> Result<String, AllocError> {
    let name = field.name.as_str();
    let kind = field.kind;
    let id = field.id;
    format!(in alloc; " {name} {kind} {id}")
}

fn shown_keys(alloc: Global, keys: &[(i32, i32)]) -> Result<String, AllocError> {
    let mut shown = String::from_str(alloc, "keys")?;
    for (type_id, field) in keys {
        shown.push_str(format!(in alloc; " {type_id} {field}")?.as_str())?;
    }
    Ok(shown)
}

fn shown_why(alloc: Global, why: &Why) -> Result<String, AllocError> {
    String::from_str(
        alloc,
        match why {
            Why::NoCache => "no cache",
            Why::CacheExists => "cache exists",
            Why::TooManyCaches => "too many caches",
            Why::TooManyChanges => "too many changes",
            Why::NoTypeName => "no type name",
            Why::Clash(clash) => clash_word(clash),
        },
    )
}

/// What two descriptions contradict each other in.
fn clash_word(clash: &Clash) -> &'static str {
    match clash {
        Clash::Name(..) => "clash of names",
        Clash::Affinity(..) => "clash of affinity keys",
        Clash::EnumFlag(..) => "clash of flags",
        Clash::Field(..) => "clash of fields",
        Clash::Literal(..) => "clash of literals",
        Clash::Schema(..) => "clash of schemas",
    }
}

/// Runs the call of a row. Says what it answers, and how often caches had been created and destroyed then.
fn run_counted(alloc: Global, caches: &mut Caches, row: &str) -> Result<(String, i32), AllocError> {
    let Some(call) = call_of(alloc, row)? else {
        return Ok((String::from_str(alloc, "no call")?, 0));
    };
    match caches.run(call) {
        Ok(answer) => Ok((shown(alloc, &answer.outcome)?, answer.minor)),
        Err(_) => Err(AllocError),
    }
}

/// Runs the call of a row, and says what it answers.
fn run(alloc: Global, caches: &mut Caches, row: &str) -> Result<String, AllocError> {
    Ok(run_counted(alloc, caches, row)?.0)
}

/// Starts with these names.
fn start(alloc: Global, names: &str) -> Result<Result<Caches, StartFault>, AllocError> {
    let mut list = Vec::new(alloc);
    for name in names.split(' ') {
        list.push(text(alloc, name)?)?;
    }
    Ok(Caches::start(alloc, list))
}

/// Whether a call on the rows of `main` is answered so and leaves these rows.
fn row_holds(alloc: Global, row: &str, answer: &str, rows: &str) -> Result<bool, AllocError> {
    let Ok(mut caches) = start(alloc, "main")? else {
        return Ok(false);
    };
    run(alloc, &mut caches, "put main 1 2")?;
    if run(alloc, &mut caches, row)?.as_str() != answer {
        return Ok(false);
    }
    Ok(run(alloc, &mut caches, "scan main")?.as_str() == rows)
}

/// Whether a call on the rows of `main` is refused where `main` doesn't stand.
fn is_refused(alloc: Global, row: &str) -> Result<bool, AllocError> {
    let Ok(mut caches) = start(alloc, "x")? else {
        return Ok(false);
    };
    Ok(run(alloc, &mut caches, row)?.as_str() == "no cache")
}

/// The first row with another answer or other rows after it, or whose call isn't refused without `main`.
fn wrong_row(alloc: Global) -> Result<Option<&'static str>, AllocError> {
    for &(row, answer, rows) in &ROWS_OF_MAIN {
        if !row_holds(alloc, row, answer, rows)? {
            return Ok(Some(row));
        }
        if !is_refused(alloc, row)? {
            return Ok(Some(row));
        }
    }
    Ok(None)
}

#[test]
fn calls_on_rows_answer_and_leave(rt: HostRuntime) -> Result<(), Fail> {
    assert_eq!(rt; wrong_row(rt.alloc())?, None);
    Ok(())
}

/// A call, its answer, and how often caches had been created and destroyed then.
type Step = (&'static str, &'static str, i32);

/// Calls in turn on caches that start with `main`.
static SESSIONS: [&[Step]; 6] = [
    // Keys that are repeated, and one without a row.
    &[
        ("put-all main 1 2 1 3 4 5", "done", 0),
        ("get-all main 4 1 9 4", "rows 4 5 1 3", 0),
        ("scan main", "rows 1 3 4 5", 0),
    ],
    // The rows of a scan are those of its time, in the order of their keys' bytes.
    &[
        ("put-all main 5 5 3 3 2 2 1 1 4 4", "done", 0),
        ("scan main", "rows 1 1 2 2 3 3 4 4 5 5", 0),
        ("put main 6 6", "done", 0),
        ("scan main", "rows 1 1 2 2 3 3 4 4 5 5 6 6", 0),
        ("put-all main 256 7 -1 8", "done", 0),
        ("size main", "count 8", 0),
        ("clear-keys main 2 3 4 5 6", "done", 0),
        ("scan main", "rows 256 7 1 1 -1 8", 0),
    ],
    // Caches are created once, and a new one of the same name is empty. What is refused isn't counted.
    &[
        ("get none 1", "no cache", 0),
        ("create x", "done", 1),
        ("create x", "cache exists", 1),
        ("get-or-create x", "done", 1),
        ("names", "names main x", 1),
        ("put x 1 7", "done", 1),
        ("get main 1", "found null", 1),
        ("scan x", "rows 1 7", 1),
        ("destroy x", "done", 2),
        ("destroy x", "no cache", 2),
        ("scan x", "no cache", 2),
        ("get-or-create x", "done", 3),
        ("scan x", "rows", 3),
        ("create Aa", "done", 4),
        ("create BB", "cache exists", 4),
        ("get-or-create BB", "cache exists", 4),
        ("names", "names main x Aa", 4),
    ],
    // Descriptions of a type are joined, unless they clash.
    &[
        ("type 5", "no type", 0),
        ("put-type a 5 3 97", "done", 0),
        ("type 5", "type 5 P - a 3 97", 0),
        ("put-type b 5 9 98", "done", 0),
        ("type 5", "type 5 P - a 3 97 b 9 98", 0),
        ("put-type a 5 4 97", "clash of fields", 0),
        ("type 5", "type 5 P - a 3 97 b 9 98", 0),
        ("affinity main", "keys", 0),
        ("put-type a 5 3 97 1", "done", 0),
        ("type 5", "type 5 P a a 3 97 b 9 98", 0),
        ("put-type b 5 9 98 1", "clash of affinity keys", 0),
        ("type 5", "type 5 P a a 3 97 b 9 98", 0),
        ("affinity main", "keys 5 97", 0),
        ("affinity none", "no cache", 0),
    ],
    // The first name of a type stays.
    &[
        ("name 5", "no type name", 0),
        ("set-name P 5", "yes", 0),
        ("set-name Q 5", "no", 0),
        ("name 5", "name P", 0),
        ("set-name P 5", "yes", 0),
        ("name 6", "no type name", 0),
    ],
    // A value is replaced, and counted by its modes.
    &[
        ("put main 1 2", "done", 0),
        ("replace-if main 1 3 4", "no", 0),
        ("size main", "count 1", 0),
        ("size main 1", "count 0", 0),
    ],
];

/// The first call of a session with another answer or another count.
fn wrong_step(alloc: Global, session: &[Step]) -> Result<Option<&'static str>, AllocError> {
    let Ok(mut caches) = start(alloc, "main")? else {
        return Ok(Some("start"));
    };
    for &(row, answer, count) in session {
        let (shown, counted) = run_counted(alloc, &mut caches, row)?;
        if shown.as_str() != answer {
            return Ok(Some(row));
        }
        if counted != count {
            return Ok(Some(row));
        }
    }
    Ok(None)
}

/// The first such call of all sessions.
fn wrong_session(alloc: Global) -> Result<Option<&'static str>, AllocError> {
    for session in &SESSIONS {
        if let Some(row) = wrong_step(alloc, *session)? {
            return Ok(Some(row));
        }
    }
    Ok(None)
}

#[test]
fn calls_follow_one_another(rt: HostRuntime) -> Result<(), Fail> {
    assert_eq!(rt; wrong_session(rt.alloc())?, None);
    Ok(())
}

/// What stands in the caches `main` and `x`, what caches and what type 5 there are.
fn standing(alloc: Global, caches: &mut Caches) -> Result<String, AllocError> {
    let mut all = String::new(alloc);
    for row in ["scan main", "scan x", "names", "type 5", "name 5"] {
        all.push_str(run(alloc, caches, row)?.as_str())?;
        all.push(';')?;
    }
    Ok(all)
}

/// Names of caches, a call that takes memory or might, and what stands after it where 1 to 4 are rows of
/// `main`, `x` is empty and type 5 has the field `a`.
static TAKING: [(&str, &str, &str); 9] = [
    (
        "main x",
        "put-all x 5 6 1 9 7 8 5 1 2 2 3 3 4 4 6 6 8 8 9 9 10 10 11 11 12 12 13 13",
        "rows 1 1 2 2 3 3 4 4;rows 1 9 2 2 3 3 4 4 5 1 6 6 7 8 8 8 9 9 10 10 11 11 12 12 13 13;names main x;type 5 P - a 3 97;no type name;",
    ),
    (
        "main x",
        "put-all main 4 7 5 8 1 9",
        "rows 1 9 2 2 3 3 4 7 5 8;rows;names main x;type 5 P - a 3 97;no type name;",
    ),
    (
        "main x",
        "remove-keys main 1 9 3",
        "rows 2 2 4 4;rows;names main x;type 5 P - a 3 97;no type name;",
    ),
    (
        "main x a b c d e f g",
        "create y",
        "rows 1 1 2 2 3 3 4 4;rows;names main x a b c d e f g y;type 5 P - a 3 97;no type name;",
    ),
    (
        "main x a b c d e f g",
        "get-or-create y",
        "rows 1 1 2 2 3 3 4 4;rows;names main x a b c d e f g y;type 5 P - a 3 97;no type name;",
    ),
    (
        "main x",
        "put-type b 5 9 98",
        "rows 1 1 2 2 3 3 4 4;rows;names main x;type 5 P - a 3 97 b 9 98;no type name;",
    ),
    (
        "main x",
        "set-name P 5",
        "rows 1 1 2 2 3 3 4 4;rows;names main x;type 5 P - a 3 97;name P;",
    ),
    (
        "main x",
        "get-and-put x 1 2",
        "rows 1 1 2 2 3 3 4 4;rows 1 2;names main x;type 5 P - a 3 97;no type name;",
    ),
    (
        "main x",
        "get-and-remove main 2",
        "rows 1 1 3 3 4 4;rows;names main x;type 5 P - a 3 97;no type name;",
    ),
];

/// Runs a call. If there is no memory for it, whether nothing has changed and the call that came back runs.
fn runs_whole(alloc: Global, caches: &mut Caches, row: &str) -> Result<bool, AllocError> {
    let before = standing(alloc, caches)?;
    let Some(call) = call_of(alloc, row)? else {
        return Ok(false);
    };
    let Err(NoRoom { back }) = caches.run(call) else {
        return Ok(true);
    };
    if standing(alloc, caches)?.as_str() != before.as_str() {
        return Ok(false);
    }
    Ok(caches.run(back).is_ok())
}

/// Whether the call runs so, and leaves what stands then.
fn leaves(alloc: Global, names: &str, row: &str, after: &str) -> Result<bool, AllocError> {
    let Ok(mut caches) = start(alloc, names)? else {
        return Err(AllocError);
    };
    run(alloc, &mut caches, "put-all main 1 1 2 2 3 3 4 4")?;
    run(alloc, &mut caches, "put-type a 5 3 97")?;
    if !runs_whole(alloc, &mut caches, row)? {
        return Ok(false);
    }
    Ok(standing(alloc, &mut caches)?.as_str() == after)
}

/// The first call that leaves something else.
fn wrong_taking(alloc: Global) -> Result<Option<&'static str>, AllocError> {
    for &(names, row, after) in &TAKING {
        if !leaves(alloc, names, row, after)? {
            return Ok(Some(row));
        }
    }
    Ok(None)
}

// For allocations that are refused one at a time: the call then answers that there is no memory, or what it always does.
#[test]
fn calls_without_memory_change_nothing(rt: HostRuntime) -> Result<(), Fail> {
    assert_eq!(rt; wrong_taking(rt.alloc())?, None);
    Ok(())
}

/// Names, and what starting with them leads to.
static STARTS: [(&str, Result<(), StartFault>); 6] = [
    ("a b", Ok(())),
    ("main", Ok(())),
    ("a ", Err(StartFault::Empty { at: 1 })),
    ("a a", Err(StartFault::Taken { at: 1 })),
    ("Aa b BB", Err(StartFault::Taken { at: 2 })),
    ("a a ", Err(StartFault::Empty { at: 2 })),
];

fn started(alloc: Global, row: &str) -> Result<Result<(), StartFault>, AllocError> {
    Ok(match start(alloc, row)? {
        Ok(_) => Ok(()),
        Err(fault) => Err(fault),
    })
}

/// The first row of names that leads to something else.
fn wrong_start(alloc: Global) -> Result<Option<&'static str>, AllocError> {
    for &(row, want) in &STARTS {
        if started(alloc, row)? != want {
            return Ok(Some(row));
        }
    }
    Ok(None)
}

#[test]
fn starts_and_their_faults(rt: HostRuntime) -> Result<(), Fail> {
    assert_eq!(rt; wrong_start(rt.alloc())?, None);
    let none = Caches::start(rt.alloc(), Vec::new(rt.alloc()));
    assert!(rt; none.is_ok());
    Ok(())
}

#[test]
fn faults_print(rt: HostRuntime) -> Result<(), Fail> {
    let taken = StartFault::Taken { at: 1 };
    let empty = StartFault::Empty { at: 0 };
    let many = StartFault::TooMany;
    let memory = StartFault::NoMemory;
    let shown = format!(in rt.alloc(); "{taken}; {empty}; {many}; {memory}")?;
    assert_eq!(rt;
        shown.as_str(),
        "the name at index 1 has the identifier of an earlier name; the name at index 0 is empty; there are more than 1,024 names; out of memory"
    );
    Ok(())
}
