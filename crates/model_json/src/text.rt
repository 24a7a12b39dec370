ghost use Rattle.std.specs.Prelude.{◌≡◌, false, IfOk, IfErr};
ghost use Rattle.serde_json.specs.View.{view};
ghost use Rattle.serde_json.specs.Written.{has_float};
ghost use Rattle.model_json.specs.Report.{report_text, IsLineOf};

use decl_base::Refusal;
use serde_json::Value;
use std::alloc::Global;

/// The compact text of the value, and one line feed. Of a float it is only known that its digits read back as it.
pub fn text_of(alloc: Global, value: &Value) -> Result<Vec<u8>, Refusal>
    ensures text { has_float (view value.now) ≡ false → IfOk result (λ bytes. bytes.items ≡ report_text (view value.now)) }
    ensures reads_back { IfOk result (λ bytes. IsLineOf (view value.now) bytes.items) }
    ensures cause { IfErr result (λ e. e ≡ Refusal.Memory) }
{
    let mut text = value.to_string(alloc)?;
    text.push('\n')?;
    Ok(text.into_bytes())
}
