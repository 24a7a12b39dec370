ghost use Rattle.std.specs.Prelude.{◌≡◌, ◌≤◌, ℕ, List, All, Ok, Err, false, length, count_by, map};
ghost use Rattle.serde_json.specs.Data.{Data, depth};
ghost use Rattle.serde_json.specs.Read.{max_depth};
ghost use Rattle.serde_json.specs.Written.{has_float};
ghost use Rattle.decl_base.specs.declared.refusal.Refusal.{Refusal as RefusalOf};
ghost use Rattle.reduce_model.specs.Sifting.{Sifting};
ghost use Rattle.reduce_model.specs.declared.decision.Decision.{Decision as DecisionOf};
ghost use Rattle.scoring.specs.declared.scored.Scored.{Scored as ScoredOf};
ghost use Rattle.template_core.specs.declared.repertoire.Repertoire.{Repertoire as RepertoireOf};
ghost use Rattle.chain_cert.specs.Parts.{ChainParts};
ghost use Rattle.model_json.specs.ChainValue.{certificate_object};
ghost use Rattle.model_json.specs.Model.{Known, IsListed, IsModel, IsOfModel, listed, model_of, model_of_bytes};
ghost use Rattle.model_json.specs.Report.{is_tested, consistent_report, model_report, scores_report, staying, IsLineOf};

/// A model that is read has names that stand once, well-made constraints, and no more of both than the limits say.
pub fn models_are_within()
    ensures { (bytes : List ℕ) (model : Known) → model_of_bytes bytes ≡ Ok model → IsModel model }
{}

/// Bytes that are no model are refused as such, or for a limit.
pub fn refusals_are_of_models()
    ensures { (bytes : List ℕ) (refusal : RefusalOf) → model_of_bytes bytes ≡ Err refusal → IsOfModel refusal }
{}

/// A report, read as a model, has its names and its listed constraints again, in order.
pub fn reports_read_back()
    ensures scores { (names : List (List ℕ)) (repertoire : RepertoireOf) (list : List ScoredOf) (traces events : ℕ) → IsListed repertoire names list
        → model_of (scores_report names repertoire list traces events) ≡ Ok (listed names list) }
    ensures consistent { (names : List (List ℕ)) (repertoire : RepertoireOf) (list : List ScoredOf) (sifting : Sifting) (traces events : ℕ)
        → IsListed repertoire names (staying list sifting.decisions)
        → model_of (consistent_report names repertoire list sifting traces events) ≡ Ok (listed names (staying list sifting.decisions)) }
    ensures model { (names : List (List ℕ)) (repertoire : RepertoireOf) (list : List ScoredOf)
        (decisions : List DecisionOf) (witnesses : List (List ℕ)) (example : List ℕ) (traces events : ℕ)
        → IsListed repertoire names (staying list decisions) → length witnesses ≡ count_by is_tested decisions
        → model_of (model_report names repertoire list decisions witnesses example traces events) ≡ Ok (listed names (staying list decisions)) }
{}

/// The text of a report, read as a model, has its names and its listed constraints again, in order.
pub fn report_texts_read_back()
    ensures scores { (names : List (List ℕ)) (repertoire : RepertoireOf) (list : List ScoredOf) (traces events : ℕ) (text : List ℕ)
        → IsListed repertoire names list
        → IsLineOf (scores_report names repertoire list traces events) text → model_of_bytes text ≡ Ok (listed names list) }
    ensures consistent { (names : List (List ℕ)) (repertoire : RepertoireOf) (list : List ScoredOf)
        (sifting : Sifting) (traces events : ℕ) (text : List ℕ)
        → IsListed repertoire names (staying list sifting.decisions) → IsLineOf (consistent_report names repertoire list sifting traces events) text
        → model_of_bytes text ≡ Ok (listed names (staying list sifting.decisions)) }
    ensures model { (names : List (List ℕ)) (repertoire : RepertoireOf) (list : List ScoredOf)
        (decisions : List DecisionOf) (witnesses : List (List ℕ)) (example : List ℕ) (traces events : ℕ) (text : List ℕ)
        → IsListed repertoire names (staying list decisions) → length witnesses ≡ count_by is_tested decisions
        → IsLineOf (model_report names repertoire list decisions witnesses example traces events) text
        → model_of_bytes text ≡ Ok (listed names (staying list decisions)) }
{}

/// A report nests no deeper than what is read, so its text reads back as it.
pub fn reports_are_shallow()
    ensures scores { (names : List (List ℕ)) (repertoire : RepertoireOf) (list : List ScoredOf) (traces events : ℕ)
        → depth (scores_report names repertoire list traces events) ≤ max_depth }
    ensures consistent { (names : List (List ℕ)) (repertoire : RepertoireOf) (list : List ScoredOf) (sifting : Sifting) (traces events : ℕ)
        → depth (consistent_report names repertoire list sifting traces events) ≤ max_depth }
    ensures model { (names : List (List ℕ)) (repertoire : RepertoireOf) (list : List ScoredOf)
        (decisions : List DecisionOf) (witnesses : List (List ℕ)) (example : List ℕ) (traces events : ℕ)
        → depth (model_report names repertoire list decisions witnesses example traces events) ≤ max_depth }
    ensures certificate { (names : List (List ℕ)) (repertoire : RepertoireOf) (list : List ScoredOf)
        (decisions : List DecisionOf) (witnesses : List (List ℕ)) (example : List ℕ) (traces events : ℕ) (chain : ChainParts)
        → depth (certificate_object (model_report names repertoire list decisions witnesses example traces events) chain) ≤ max_depth }
{}

/// A report has no float, so its text is known.
pub fn reports_have_no_float()
    ensures scores { (names : List (List ℕ)) (repertoire : RepertoireOf) (list : List ScoredOf) (traces events : ℕ)
        → has_float (scores_report names repertoire list traces events) ≡ false }
    ensures consistent { (names : List (List ℕ)) (repertoire : RepertoireOf) (list : List ScoredOf) (sifting : Sifting) (traces events : ℕ)
        → has_float (consistent_report names repertoire list sifting traces events) ≡ false }
    ensures model { (names : List (List ℕ)) (repertoire : RepertoireOf) (list : List ScoredOf)
        (decisions : List DecisionOf) (witnesses : List (List ℕ)) (example : List ℕ) (traces events : ℕ)
        → has_float (model_report names repertoire list decisions witnesses example traces events) ≡ false }
    ensures certificate { (report : Data) (chain : ChainParts) → has_float report ≡ false → has_float (certificate_object report chain) ≡ false }
{}
