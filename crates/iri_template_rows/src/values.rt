// The values of a template's variables (RFC 6570 section 2.3), as rows give them.
use iri_rows::answer::spaced;
use iri_rows::error::RowError;
use iri_rows::field::Field;
use iri_template::simple_context::SimpleContext;
use iri_template::value::{PairList, TextList, Value};
use iri_template::var_name::VarName;
use iri_text::Text;
use std::alloc::{AllocError, Global};

#[derive(Drop)]
pub(crate) struct Values {
    context: SimpleContext,
}

impl Values {
    pub(crate) fn new(alloc: Global) -> Values {
        Values {
            context: SimpleContext::new(alloc),
        }
    }

    pub(crate) fn context(&self) -> &SimpleContext {
        &self.context
    }

    // `values`: begins values, with none.
    fn begun(&mut self, alloc: Global) -> Result<String, RowError> {
        self.context.clear();
        Ok(String::from_str(alloc, "none")?)
    }

    // The value that stood there before.
    fn put(&mut self, alloc: Global, name: &Field, value: Value) -> Result<String, RowError> {
        let key = String::from_str(alloc, name.text()?)?;
        match self.context.insert(key, value) {
            Ok(Some(old)) => Ok(shown(alloc, &old)?),
            Ok(None) => Ok(String::from_str(alloc, "none")?),
            Err(_) => Err(RowError::Memory(AllocError)),
        }
    }

    // `value NAME`: the value of a name.
    fn value(&self, alloc: Global, name: &Field) -> Result<String, RowError> {
        Ok(shown_at(alloc, &self.context, name.text()?)?)
    }

    // The rows that give variables their values: `string NAME TEXT`, `list NAME ITEM..`, `pairs NAME KEY VALUE ..` and
    // `undefined NAME`; each is answered by the old value.
    pub(crate) fn answer(
        &mut self,
        alloc: Global,
        verb: &str,
        fields: &[Field],
    ) -> Result<String, RowError> {
        match (verb, fields) {
            ("values", []) => self.begun(alloc),
            ("string", [name, text]) => self.put(alloc, name, string(alloc, text)?),
            ("list", [name, items @ ..]) => self.put(alloc, name, list(alloc, items)?),
            ("pairs", [name, entries @ ..]) => self.put(alloc, name, pairs(alloc, entries)?),
            ("undefined", [name]) => self.put(alloc, name, Value::Undefined),
            ("value", [name]) => self.value(alloc, name),
            _ => Err(RowError::NoRow),
        }
    }
}

fn string(alloc: Global, text: &Field) -> Result<Value, RowError> {
    let text = String::from_str(alloc, text.text()?)?;
    Ok(Value::String(Text::from_string(text)))
}

fn list(alloc: Global, items: &[Field]) -> Result<Value, RowError> {
    let mut texts = TextList::new(alloc);
    for item in items {
        let Ok(()) = texts.push(String::from_str(alloc, item.text()?)?) else {
            return Err(RowError::Memory(AllocError));
        };
    }
    Ok(Value::List(texts))
}

fn pairs(alloc: Global, entries: &[Field]) -> Result<Value, RowError> {
    let mut texts = PairList::new(alloc);
    for entry in entries.chunks(2) {
        let [key, value] = entry else {
            return Err(RowError::NoRow);
        };
        let key = String::from_str(alloc, key.text()?)?;
        let value = String::from_str(alloc, value.text()?)?;
        let Ok(()) = texts.push(key, value) else {
            return Err(RowError::Memory(AllocError));
        };
    }
    Ok(Value::Assoc(texts))
}

// Each item after a line feed.
fn shown_list(alloc: Global, items: &TextList) -> Result<String, AllocError> {
    let mut text = String::from_str(alloc, "list")?;
    for i in 0..items.len() {
        if let Some(item) = items.get(i) {
            text.push_str("\n")?;
            text.push_str(item)?;
        }
    }
    Ok(text)
}

// Each entry after a line feed.
fn shown_pairs(alloc: Global, pairs: &PairList) -> Result<String, AllocError> {
    let mut text = String::from_str(alloc, "pairs")?;
    for i in 0..pairs.len() {
        if let Some((key, value)) = pairs.get(i) {
            let entry = format!(in alloc; "\n{key}={value}")?;
            text.push_str(entry.as_str())?;
        }
    }
    Ok(text)
}

// A value as an answer.
pub(crate) fn shown(alloc: Global, value: &Value) -> Result<String, AllocError> {
    match value {
        Value::String(text) => spaced(alloc, &["string", text.as_str()]),
        Value::List(items) => shown_list(alloc, items),
        Value::Assoc(pairs) => shown_pairs(alloc, pairs),
        Value::Undefined => String::from_str(alloc, "undefined"),
    }
}

// The value of a name as an answer.
pub(crate) fn shown_at(
    alloc: Global,
    context: &SimpleContext,
    name: &str,
) -> Result<String, AllocError> {
    match VarName::new(name) {
        Ok(name) => match context.get(name) {
            Some(value) => shown(alloc, value),
            None => String::from_str(alloc, "none"),
        },
        Err(_) => String::from_str(alloc, "no name"),
    }
}
