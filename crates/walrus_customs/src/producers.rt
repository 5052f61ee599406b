//! What made a module.
ghost use Rattle.std.specs.Prelude.{◌≡◌, [], OnOk, OnErr, IfOk, string_bytes};
ghost use Rattle.std.specs.List.{position};
ghost use Rattle.std.specs.Str.{bytes_eq};
ghost use Rattle.wasm_producers.specs.Entries.{with_value, with_entry};
ghost use Rattle.walrus_customs.specs.Producers.{value_of, values_of, field_of, fields_of, language, processed_by, sdk};

use std::alloc::{AllocError, Global};
use std::marker::Model;

/// A tool, language or kit, and its version.
#[derive(Drop)]
pub struct ProducerValue {
    /// What it is called.
    pub name: String,
    /// Its version.
    pub version: String,
}

/// What was used in one role.
#[derive(Drop)]
pub struct ProducerField {
    /// The role, as `language` or `processed-by`.
    pub name: String,
    /// What was used.
    pub values: Vec<ProducerValue>,
}

/// What made a module: the fields of its `producers` section (WebAssembly tool conventions).
#[derive(Drop)]
pub struct ModuleProducers {
    alloc: Global,
    fields: Vec<ProducerField>,
}

impl Model for ModuleProducers {
    ghost use Rattle.std.specs.Prelude.{List};
    ghost use Rattle.walrus_customs.specs.declared.producers.ProducerField.{ProducerField};

    ghost Value = { List ProducerField };

    ghost view = { λ p. p.fields.items };
}

impl ProducerValue {
    fn new(alloc: Global, name: &str, version: &str) -> Result<Self, AllocError>
        ensures { IfOk result (λ value. value_of value ≡ record { name = name.now; version = version.now }) }
    {
        Ok(ProducerValue {
            name: String::from_str(alloc, name)?,
            version: String::from_str(alloc, version)?,
        })
    }

    /// What it is called.
    pub fn name(&self) -> &str
        ensures { result.now ≡ string_bytes self.now.name }
    {
        self.name.as_str()
    }

    /// Its version.
    pub fn version(&self) -> &str
        ensures { result.now ≡ string_bytes self.now.version }
    {
        self.version.as_str()
    }

    /// An equal value.
    ///
    /// # Errors
    ///
    /// Want of memory.
    pub fn clone(&self) -> Result<Self, AllocError>
        ensures { IfOk result (λ copy. value_of copy ≡ value_of self.now) }
    {
        Ok(ProducerValue {
            name: self.name.clone()?,
            version: self.version.clone()?,
        })
    }
}

// The place of the first value of this name.
fn value_index(values: &[ProducerValue], name: &str) -> Option<usize>
    ensures { result ≡ position (λ v. bytes_eq (string_bytes v.name) name.now) values.now }
{
    values.iter().position(|value| value.name.as_str() == name)
}

// The place of the first field of this name.
fn field_index(fields: &[ProducerField], name: &str) -> Option<usize>
    ensures { result ≡ position (λ f. bytes_eq (string_bytes f.name) name.now) fields.now }
{
    fields.iter().position(|field| field.name.as_str() == name)
}

impl ProducerField {
    /// The role.
    pub fn name(&self) -> &str
        ensures { result.now ≡ string_bytes self.now.name }
    {
        self.name.as_str()
    }

    /// What was used, in order.
    pub fn values(&self) -> &[ProducerValue]
        ensures { result.now ≡ self.now.values.items }
    {
        self.values.as_slice()
    }

    /// An equal field.
    ///
    /// # Errors
    ///
    /// Want of memory.
    pub fn clone(&self) -> Result<Self, AllocError>
        ensures { IfOk result (λ copy. field_of copy ≡ field_of self.now) }
    {
        let name = self.name.clone()?;
        let mut values = Vec::new(*self.values.allocator());
        for value in self.values.iter() {
            values.push(value.clone()?)?;
        }
        Ok(ProducerField { name, values })
    }

    // Gives the first value of this name this version, or adds one.
    fn put(&mut self, alloc: Global, name: &str, version: &str) -> Result<(), AllocError>
        ensures name { string_bytes self.new.name ≡ string_bytes self.old.name }
        ensures put { OnOk result (values_of self.new.values.items ≡ with_value name.now version.now (values_of self.old.values.items)) }
        ensures refused { OnErr result (values_of self.new.values.items ≡ values_of self.old.values.items) }
    {
        let value = ProducerValue::new(alloc, name, version)?;
        match value_index(self.values.as_slice(), name) {
            Some(index) => self.values[index] = value,
            None => self.values.push(value)?,
        }
        Ok(())
    }
}

// Equal fields.
fn copies(alloc: Global, fields: &[ProducerField]) -> Result<Vec<ProducerField>, AllocError>
    ensures { IfOk result (λ copies. fields_of copies.items ≡ fields_of fields.now) }
{
    let mut copies = Vec::new(alloc);
    for field in fields {
        copies.push(field.clone()?)?;
    }
    Ok(copies)
}

impl ModuleProducers {
    /// No fields. Takes no memory.
    pub fn new(alloc: Global) -> Self
        ensures { result ≡ [] }
    {
        ModuleProducers {
            alloc,
            fields: Vec::new(alloc),
        }
    }

    /// These fields, as a module that was read has them. Takes no memory.
    pub fn from_fields(alloc: Global, fields: Vec<ProducerField>) -> Self
        ensures { result ≡ fields.items }
    {
        ModuleProducers { alloc, fields }
    }

    /// Equal producers.
    ///
    /// # Errors
    ///
    /// Want of memory.
    pub fn clone(&self) -> Result<Self, AllocError>
        ensures { IfOk result (λ copy. fields_of copy ≡ fields_of self.now) }
    {
        let fields = copies(self.alloc, self.fields.as_slice())?;
        Ok(ModuleProducers {
            alloc: self.alloc,
            fields,
        })
    }

    /// The fields, in their order.
    pub fn fields(&self) -> &[ProducerField]
        ensures { result.now ≡ self.now }
    {
        self.fields.as_slice()
    }

    /// Drops all fields. Takes no memory.
    pub fn clear(&mut self)
        ensures { self.new ≡ [] }
    {
        self.fields.clear();
    }

    /// Says that a language was used: in the first field `language`, which is added where there is none, the first value of this
    /// name gets this version, or is added.
    ///
    /// # Errors
    ///
    /// Want of memory. The fields stay as they were.
    pub fn add_language(&mut self, name: &str, version: &str) -> Result<(), AllocError>
        ensures added { OnOk result (fields_of self.new ≡ with_entry language name.now version.now (fields_of self.old)) }
        ensures refused { OnErr result (fields_of self.new ≡ fields_of self.old) }
    {
        self.put("language", name, version)
    }

    /// The same of a tool, in the field `processed-by`.
    ///
    /// # Errors
    ///
    /// Want of memory. The fields stay as they were.
    pub fn add_processed_by(&mut self, name: &str, version: &str) -> Result<(), AllocError>
        ensures added { OnOk result (fields_of self.new ≡ with_entry processed_by name.now version.now (fields_of self.old)) }
        ensures refused { OnErr result (fields_of self.new ≡ fields_of self.old) }
    {
        self.put("processed-by", name, version)
    }

    /// The same of a kit, in the field `sdk`.
    ///
    /// # Errors
    ///
    /// Want of memory. The fields stay as they were.
    pub fn add_sdk(&mut self, name: &str, version: &str) -> Result<(), AllocError>
        ensures added { OnOk result (fields_of self.new ≡ with_entry sdk name.now version.now (fields_of self.old)) }
        ensures refused { OnErr result (fields_of self.new ≡ fields_of self.old) }
    {
        self.put("sdk", name, version)
    }

    fn put(&mut self, of: &str, name: &str, version: &str) -> Result<(), AllocError>
        ensures added { OnOk result (fields_of self.new ≡ with_entry of.now name.now version.now (fields_of self.old)) }
        ensures refused { OnErr result (fields_of self.new ≡ fields_of self.old) }
    {
        match field_index(self.fields.as_slice(), of) {
            Some(index) => {
                let field = &mut self.fields[index];
                field.put(self.alloc, name, version)?;
            }
            None => {
                let field = new_field(self.alloc, of, name, version)?;
                self.fields.push(field)?;
            }
        }
        Ok(())
    }
}

// A field of one value.
fn new_field(
    alloc: Global,
    of: &str,
    name: &str,
    version: &str,
) -> Result<ProducerField, AllocError>
    ensures { IfOk result (λ field. field_of field ≡ record { name = of.now; values = with_value name.now version.now [] }) }
{
    let mut field = ProducerField {
        name: String::from_str(alloc, of)?,
        values: Vec::new(alloc),
    };
    field.put(alloc, name, version)?;
    Ok(field)
}
