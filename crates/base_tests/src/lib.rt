//! Cases of `float_text`, `dap_types`, `dap_outside`, `file_names`, `text_lines`: floats and their texts, values, the outside in memory, names of files and words of lines.
#![tactic(auto)]

#[cfg(test)]
mod tests;
