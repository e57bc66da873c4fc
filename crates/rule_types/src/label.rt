// Labels and pairs of labels.
ghost use Rattle.std.specs.Prelude.{◌≡◌};
ghost use Rattle.rule_types.specs.Label.{code_of, pair_a, pair_b};

// The choice that the rules make, of labels and of pairs.
pub use prices::price::pick;

// The 38 labels, in the order of their codes, each with the source's text.
#[derive(Clone, Copy, Debug, PartialEq, Eq)]
pub enum Label {
    // 其他
    Other,
    // 任意
    Any,
    // 满足
    Met,
    // 锤子
    Hammer,
    // 上吊
    HangingMan,
    // 看涨吞没
    BullishEngulfing,
    // 看跌吞没
    BearishEngulfing,
    // 上升三法
    RisingThreeMethods,
    // 下降三法
    FallingThreeMethods,
    // 5K
    Bars5,
    // 6K
    Bars6,
    // 7K
    Bars7,
    // 8K
    Bars8,
    // 9K
    Bars9,
    // 启明星
    MorningStar,
    // 黄昏星
    EveningStar,
    // 中间十字
    MiddleDoji,
    // 下跌分手
    FallingSeparatingLines,
    // 上升分手
    RisingSeparatingLines,
    // 箭在弦
    ArrowOnString,
    // 风中烛
    CandleInWind,
    // 看空
    Bearish,
    // 看多
    Bullish,
    // 底部
    Bottom,
    // 顶部
    Top,
    // 实体标准
    StandardBody,
    // 常规
    Regular,
    // 加强
    Strong,
    // 半加强
    HalfStrong,
    // 蜻蜓十字线
    DragonflyDoji,
    // 墓碑十字线
    GravestoneDoji,
    // 长腿十字线
    LongLeggedDoji,
    // 十字线
    CommonDoji,
    // 北方
    Northern,
    // 看涨反击线
    BullishCounterattack,
    // 看跌反击线
    BearishCounterattack,
    // 向上跳空
    GapUp,
    // 向下跳空
    GapDown,
}

// What a recogniser answers.
#[derive(Clone, Copy, Debug, PartialEq, Eq)]
pub struct Pair {
    pub v1: Label,
    pub v2: Label,
}

// The short pairs: A is 其他/其他, B is 其他/任意.
pub fn pair_a() -> Pair
    ensures { result ≡ pair_a }
{
    Pair {
        v1: Label::Other,
        v2: Label::Other,
    }
}

pub fn pair_b() -> Pair
    ensures { result ≡ pair_b }
{
    Pair {
        v1: Label::Other,
        v2: Label::Any,
    }
}

// The code of a label: its place in the list.
pub fn code(l: Label) -> u8
    ensures { result ≡ code_of l }
{
    l as u8
}
